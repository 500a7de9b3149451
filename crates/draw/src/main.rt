// Draws a register of grounds in signs: each square of the picture shows what its middle has.
//
//     draw FILE                          all grounds, in squares as small as 78 columns and 36 rows allow
//     draw FILE x y step columns rows    columns by rows of squares, step by step ells each, from the south-west corner x, y on
//
// The picture goes to standard output; what is wrong, and how far longer work is, to standard error.
#![tactic(auto)]

mod chart;
mod order;
mod painting;
mod problem;
mod reading;

use chart::Chart;
use order::Order;
use painting::paint;
use problem::Problem;
use raster::{Window, fit};
use reading::read_register;
use std::process::ExitCode;

// The window that was asked for, or the one that shows all grounds. A register without grounds has no picture.
fn window_of(order: &Order, chart: &Chart) -> Option<Window> {
    let extent = chart.extent?;
    Some(order.window.unwrap_or_else(|| fit(extent)))
}

fn run(rt: &HostRuntime) -> Result<(), Problem> {
    let order = Order::given(rt)?;
    let mut chart = Chart::new(rt.alloc())?;
    read_register(rt, order.file.as_str(), &mut chart)?;
    let window = window_of(&order, &chart).ok_or(Problem::NoGrounds(order.file))?;
    paint(rt, &mut chart, window)
}

fn main(rt: HostRuntime) -> ExitCode {
    let Err(problem) = run(&rt) else {
        return ExitCode::SUCCESS;
    };
    let _ = eprintln!(rt; "draw: {problem}");
    ExitCode::FAILURE
}
