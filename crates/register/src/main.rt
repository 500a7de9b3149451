// A register of grounds: reads it from a file, tells what is wrong in it, and then answers commands, checks it or writes it as well-known text.
#![tactic(auto)]

mod book;
mod checking;
mod loading;
mod options;

use book::Book;
use checking::check;
use dialogue::converse;
use entries::write_wkt;
use loading::load;
use options::{Asked, Mode, Options, USAGE, read_options};
use std::process::ExitCode;

// Every ground that was taken, a line each.
fn write_grounds(rt: &HostRuntime, book: &Book) -> anyhow::Result<()> {
    for ground in &book.grounds {
        let text = write_wkt(rt.alloc(), ground.number, ground.row.as_slice())?;
        println!(rt; "{text}")?;
    }
    Ok(())
}

// Does what was asked with the register that was read. The three want different things of it, so no function is handed on in place of a mode.
fn work(rt: &HostRuntime, mode: Mode, book: &mut Book) -> anyhow::Result<()> {
    match mode {
        Mode::Converse => converse(rt, &mut book.machine),
        Mode::Check => check(rt, book),
        Mode::WellKnownText => write_grounds(rt, book),
    }
}

fn run(rt: &HostRuntime, options: &Options) -> anyhow::Result<ExitCode> {
    let mut book = Book::new(rt.alloc())?;
    if let Err(error) = load(rt, options, &mut book) {
        let file = options.file.as_str();
        eprintln!(rt; "register: {file}: {error}")?;
        return Ok(ExitCode::FAILURE);
    }
    work(rt, options.mode, &mut book)?;
    Ok(ExitCode::SUCCESS)
}

fn main(rt: HostRuntime) -> anyhow::Result<ExitCode> {
    match read_options(&rt)? {
        Some(Asked::Work(options)) => run(&rt, &options),
        Some(Asked::Help) => {
            print!(rt; "{USAGE}")?;
            Ok(ExitCode::SUCCESS)
        }
        None => {
            eprint!(rt; "{USAGE}")?;
            Ok(ExitCode::FAILURE)
        }
    }
}
