// What was measured, told.
use anyhow::Result;
use std::time::Instant;

// How many were asked or put, and how many grounds were told.
#[derive(Clone, Copy, Default)]
pub(crate) struct Counted {
    pub asked: u64,
    pub found: u64,
}

// Does some work, tells what it counted, and how long it took.
pub(crate) fn clocked<F: FnOnce() -> Result<Counted>>(
    rt: &HostRuntime,
    what: &str,
    work: F,
) -> Result<()>
    requires { F.IsAlwaysCallable work }
{
    let start = Instant::now(rt)?;
    let Counted { asked, found } = work()?;
    let micros = start.elapsed(rt)?.as_micros();
    println!(rt; "{what}: {asked}, grounds told: {found}")?;
    eprintln!(rt; "{what}: {asked} in {micros} microseconds")?;
    Ok(())
}
