// The picture, row by row from the north.
use crate::chart::Chart;
use crate::problem::Problem;
use raster::Window;
use std::alloc::{AllocError, Global};
use std::io;
use std::io::Write;

// With more columns than this it says how far it is, every so many rows.
const WIDE: u32 = 128;

const ROWS_BETWEEN: u32 = 64;

// The signs of a row, from the west.
fn signs(heap: Global, chart: &mut Chart, window: Window, row: u32) -> Result<Vec<u8>, AllocError> {
    // Each square of a window that is drawn has a middle that can be asked for: every_square_is_asked, fitted_is_drawn.
    (0..window.columns)
        .filter_map(|column| window.middle(column, row))
        .map(|middle| chart.sign_at(middle))
        .try_collect(heap)
}

fn tell_progress(rt: &HostRuntime, window: Window, drawn: u32) -> io::Result<()> {
    if window.columns <= WIDE || drawn % ROWS_BETWEEN != 0 {
        return Ok(());
    }
    let rows = window.rows;
    eprintln!(rt; "draw: {drawn} of {rows} rows")
}

pub(crate) fn paint(rt: &HostRuntime, chart: &mut Chart, window: Window) -> Result<(), Problem> {
    let heap = rt.alloc();
    let mut out = rt.stdout();
    out.write_all(window.north_line(heap)?.as_bytes())?;
    for row in 0..window.rows {
        let signs = signs(heap, chart, window, row)?;
        out.write_all(window.row_line(heap, row, signs.as_slice())?.as_slice())?;
        tell_progress(rt, window, row + 1)?;
    }
    out.write_all(window.south_line(heap)?.as_bytes())?;
    out.write_all(window.scale_line(heap)?.as_bytes())?;
    Ok(())
}
