// How often each way came.
use crate::seen::Seen;
use std::fmt;
use terms::Way;

#[derive(Clone, Copy, Default)]
pub struct Tally {
    pairs: u64,
    // By the number of the way.
    ways: [u64; 6],
    // Over each other, though no edge of the one crosses one of the other amid both.
    uncrossed: u64,
}

impl Tally {
    pub(crate) fn note(&mut self, seen: Seen) {
        let way = seen.way();
        self.pairs = self.pairs.wrapping_add(1);
        let count = &mut self.ways[way as usize];
        *count = count.wrapping_add(1);
        if way == Way::Over && !seen.edges_cross {
            self.uncrossed = self.uncrossed.wrapping_add(1);
        }
    }

    pub(crate) fn add(&mut self, other: Tally) {
        self.pairs = self.pairs.wrapping_add(other.pairs);
        for (count, more) in self.ways.iter_mut().zip(other.ways.iter()) {
            *count = count.wrapping_add(*more);
        }
        self.uncrossed = self.uncrossed.wrapping_add(other.uncrossed);
    }

    pub(crate) fn show_head(rt: &HostRuntime) -> anyhow::Result<()> {
        println!(rt;
            "                        pairs  apart  touch within around   same   over  uncrossed"
        )?;
        Ok(())
    }

    pub(crate) fn show(self, rt: &HostRuntime, name: &str) -> anyhow::Result<()> {
        let counts = self;
        println!(rt; "{name:<22}{counts}")?;
        Ok(())
    }
}

impl fmt::Display for Tally {
    fn fmt<W: fmt::Write>(&self, f: &mut fmt::Formatter<W>) -> fmt::Result {
        write!(f, "{:>7}", self.pairs)?;
        for count in self.ways.iter() {
            write!(f, "{count:>7}")?;
        }
        write!(f, "{:>11}", self.uncrossed)
    }
}
