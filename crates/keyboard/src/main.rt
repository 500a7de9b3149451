// The map at a keyboard: reads lines from standard input to the end, and answers each before it reads the next.
#![tactic(auto)]

use dialogue::converse;
use map::Machine;

fn run(rt: &HostRuntime) -> anyhow::Result<()> {
    let mut machine = Machine::new(rt.alloc())?;
    converse(rt, &mut machine)
}

fn main(rt: HostRuntime) -> anyhow::Result<()> {
    run(&rt)
}
