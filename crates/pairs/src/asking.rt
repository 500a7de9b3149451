// Pairs of grounds, asked both ways.
use crate::cells::look;
use crate::fault::Fault;
use crate::pair::Pair;
use crate::seen::Seen;
use crate::tally::Tally;
use figures::Random;
use relate::how_two_lie;
use std::alloc::{AllocError, Global};
use terms::Way;

// How many pairs of a kind are made. Those that are no grounds are not asked.
const MADE: u32 = 4000;

// The longest side of a ring so stretched is about as long as the map.
const STRETCH: u64 = 16000;

// How often the two ways of looking differ, how often the answer is another one from the other side or of stretched rings, and how often a number did not fit.
#[derive(Clone, Copy, Default)]
pub struct Wrong {
    pub differ: u64,
    pub other_side: u64,
    pub stretched: u64,
    pub too_large: u64,
}

// What came of all kinds that were asked.
#[derive(Clone, Copy, Default)]
pub struct Asked {
    pub all: Tally,
    pub wrong: Wrong,
}

fn turned_round(way: Way) -> Way {
    match way {
        Way::Within => Way::Around,
        Way::Around => Way::Within,
        Way::Apart | Way::Touch | Way::Same | Way::Over => way,
    }
}

// Looks at the points of a pair; nothing if a number does not fit.
fn look_at(heap: Global, pair: &Pair) -> Result<Option<Seen>, AllocError> {
    match look(heap, &pair.first, &pair.second) {
        Ok(seen) => Ok(Some(seen)),
        Err(Fault::TooLarge) => Ok(None),
        Err(Fault::NoMemory(none)) => Err(none),
    }
}

fn stretched(heap: Global, row: &[u64]) -> Result<Vec<u64>, AllocError> {
    row.iter().map(|n| n.wrapping_mul(STRETCH)).collect(heap)
}

// Rings that are stretched lie as before, with numbers as large as there are.
fn is_told_stretched(
    heap: Global,
    first: &[u64],
    second: &[u64],
    way: Way,
) -> Result<bool, AllocError> {
    let first = stretched(heap, first)?;
    let second = stretched(heap, second)?;
    Ok(how_two_lie(&first, &second) == Some(way))
}

// Asks a pair from both sides, and stretched. One that is told wrong is shown.
fn ask(rt: &HostRuntime, pair: &Pair, way: Way, wrong: &mut Wrong) -> anyhow::Result<()> {
    let first = pair.first.row(rt.alloc())?;
    let second = pair.second.row(rt.alloc())?;
    if how_two_lie(&first, &second) != Some(way) {
        wrong.differ = wrong.differ.wrapping_add(1);
        let number = u64::from(way);
        println!(rt; "{first:?} and {second:?}: {number} by points")?;
    }
    if how_two_lie(&second, &first) != Some(turned_round(way)) {
        wrong.other_side = wrong.other_side.wrapping_add(1);
    }
    if !is_told_stretched(rt.alloc(), &first, &second, way)? {
        wrong.stretched = wrong.stretched.wrapping_add(1);
    }
    Ok(())
}

// Asks the pairs of a kind that are grounds.
fn ask_kind<F: Fn(Global, &mut Random) -> Result<Pair, AllocError>>(
    rt: &HostRuntime,
    seed: u64,
    make: F,
    wrong: &mut Wrong,
) -> anyhow::Result<Tally>
    requires { F.IsAlwaysCallable make }
{
    let heap = rt.alloc();
    let mut random = Random::new(seed);
    let mut tally = Tally::default();
    for _ in 0..MADE {
        let pair = make(heap, &mut random)?.shuffled(&mut random);
        if !pair.are_grounds(heap)? {
            continue;
        }
        let Some(seen) = look_at(heap, &pair)? else {
            wrong.too_large = wrong.too_large.wrapping_add(1);
            continue;
        };
        tally.note(seen);
        ask(rt, &pair, seen.way(), wrong)?;
    }
    Ok(tally)
}

impl Asked {
    // Asks one kind more, of pairs that are made so, and writes a line for it.
    pub(crate) fn ask<F: Fn(Global, &mut Random) -> Result<Pair, AllocError>>(
        &mut self,
        rt: &HostRuntime,
        seed: u64,
        name: &str,
        make: F,
    ) -> anyhow::Result<()>
        requires { F.IsAlwaysCallable make }
    {
        let tally = ask_kind(rt, seed, make, &mut self.wrong)?;
        tally.show(rt, name)?;
        self.all.add(tally);
        Ok(())
    }
}
