// Pairs of rings that are built after a plan: notches, combs, spirals, pinwheels, bars and slabs.
use crate::motion::Motion;
use crate::pair::Pair;
use crate::random::{Draw, Field};
use crate::ring::Ring;
use crate::spot::Spot;
use crate::tables::{GAP, LEVEL_SAIL, UPRIGHT_SAIL};
use figures::{Random, SPIRAL};
use std::alloc::{AllocError, Global};

// A little way to any side, most often none.
fn nudge(random: &mut Random) -> Spot {
    if random.one_in(2) {
        Spot::at(0, 0)
    } else {
        Spot::at(random.from(-1, 3), random.from(-1, 3))
    }
}

// More seldom still.
fn rare_nudge(random: &mut Random) -> Spot {
    if random.one_in(3) {
        nudge(random)
    } else {
        Spot::at(0, 0)
    }
}

// A block with a notch from the north, and a box about as large as the notch.
pub(crate) fn in_a_notch(heap: Global, random: &mut Random) -> Result<Pair, AllocError> {
    let west = random.from(3, 2);
    let east = west.wrapping_add(random.from(2, 3));
    let floor = random.from(2, 3);
    let top = floor.wrapping_add(random.from(2, 3));
    let slope = random.from(0, 2);
    let first = Ring::of(
        heap,
        &[
            Spot::at(1, 0),
            Spot::at(10, 0),
            Spot::at(10, top),
            Spot::at(east, top),
            Spot::at(east, floor.wrapping_add(slope)),
            Spot::at(west, floor),
            Spot::at(west, top),
            Spot::at(1, top),
        ],
    )?;
    let low = Spot::at(west, floor).plus(Spot::at(random.from(-1, 3), random.from(-1, 4)));
    let high = Spot::at(east, top).plus(Spot::at(random.from(-1, 3), random.from(-1, 3)));
    let second = Ring::upright(heap, low, high)?;
    Ok(Pair { first, second })
}

// A level base with teeth to the north: each is two ells wide at its root, upright in the east, and as wide as the tip says at its end.
fn comb(heap: Global, teeth: u32, spacing: i64, height: i64, tip: i64) -> Result<Ring, AllocError> {
    let mut corners = Vec::new(heap);
    let width = spacing.wrapping_mul(i64::from(teeth));
    corners.push(Spot::at(0, 0))?;
    corners.push(Spot::at(width, 0))?;
    for tooth in 0..teeth {
        let east = width.wrapping_sub(spacing.wrapping_mul(i64::from(tooth)));
        corners.push(Spot::at(east, height))?;
        if tip > 0 {
            corners.push(Spot::at(east.wrapping_sub(tip), height))?;
        }
        corners.push(Spot::at(east.wrapping_sub(2), 1))?;
        corners.push(Spot::at(east.wrapping_sub(spacing), 1))?;
    }
    Ok(Ring { corners })
}

// The other comb hangs from the north, with its teeth about where the first has its gaps.
pub(crate) fn combs(heap: Global, random: &mut Random) -> Result<Pair, AllocError> {
    let teeth = random.below(3).wrapping_add(2);
    let gap = random.below(3).wrapping_add(2);
    let spacing = i64::from(gap).wrapping_add(2);
    let height = random.from(3, 3);
    let tip = random.from(0, 3);
    let hung = Motion {
        origin: Spot::at(
            random.from(1, gap.wrapping_add(1)),
            height.wrapping_add(random.from(0, 3)),
        ),
        east: Spot::at(1, 0),
        north: Spot::at(0, -1),
    };
    let first = comb(heap, teeth, spacing, height, tip)?;
    let second = comb(heap, teeth, spacing, height, tip)?.under(hung);
    Ok(Pair { first, second })
}

fn spiral(heap: Global) -> Result<Ring, AllocError> {
    let corners = SPIRAL.map(|[x, y]| Spot::at(i64::from(x), i64::from(y)));
    Ring::of(heap, &corners)
}

// A spiral, and the same or what it leaves free, a little thinner or thicker.
pub(crate) fn spirals(heap: Global, random: &mut Random) -> Result<Pair, AllocError> {
    let wide = Motion {
        origin: Spot::at(2, 2),
        east: Spot::at(3, 0),
        north: Spot::at(0, 3),
    };
    let first = spiral(heap)?.under(wide);
    let other = if random.one_in(3) {
        spiral(heap)?
    } else {
        Ring::of(heap, &GAP)?
    };
    let way = rare_nudge(random);
    let second = other
        .under(wide)
        .inset(heap, random.from(-1, 3))?
        .under(Motion::by(way));
    Ok(Pair { first, second })
}

// Two sails that lie across each other with no corner inside the other, grown, and sometimes moved a little.
pub(crate) fn pinwheels(heap: Global, random: &mut Random) -> Result<Pair, AllocError> {
    let grown = Motion {
        origin: Spot::at(2, 2),
        east: Spot::at(random.from(1, 3).wrapping_mul(2), 0),
        north: Spot::at(0, random.from(1, 3).wrapping_mul(2)),
    };
    let first = Ring::of(heap, &LEVEL_SAIL)?
        .under(grown)
        .with_middles(heap, random)?;
    let second = Ring::of(heap, &UPRIGHT_SAIL)?
        .under(grown)
        .with_middles(heap, random)?;
    let place = random.place(4);
    let second = second.with_moved(place, nudge(random));
    let second = second.under(Motion::by(nudge(random)));
    Ok(Pair { first, second })
}

// A level bar and an upright one, both slanted.
pub(crate) fn bars(heap: Global, random: &mut Random) -> Result<Pair, AllocError> {
    let slanted = Motion {
        origin: Spot::at(0, 0),
        east: Spot::at(1, random.from(0, 2)),
        north: Spot::at(random.from(0, 3), 2),
    };
    let low = random.spot(Field::square(4));
    let level = low.plus(Spot::at(random.from(2, 5), random.from(1, 2)));
    let first = Ring::upright(heap, low, level)?.under(slanted);
    let low = random.spot(Field::square(4));
    let upright = low.plus(Spot::at(random.from(1, 2), random.from(2, 5)));
    let second = Ring::upright(heap, low, upright)?.under(slanted);
    Ok(Pair { first, second })
}

// A zigzag eastward, with so many bends at even spots.
fn chain(heap: Global, random: &mut Random, bends: u32) -> Result<Ring, AllocError> {
    let mut corners = Vec::new(heap);
    for bend in 0..=bends {
        let height = random.from(2, 4).wrapping_mul(2);
        corners.push(Spot::at(i64::from(bend).wrapping_mul(4), height))?;
    }
    Ok(Ring { corners })
}

// A slab that a chain cuts in two; in most the northern part keeps the chain, in others a corner of it or all is moved.
pub(crate) fn cut_slab(heap: Global, random: &mut Random) -> Result<Pair, AllocError> {
    let bends = random.below(5).wrapping_add(1);
    let east = i64::from(bends).wrapping_mul(4);
    let place = random.place(bends as usize);
    let way = rare_nudge(random);
    let raised = if random.one_in(3) {
        random.from(-1, 3)
    } else {
        0
    };
    let chain = chain(heap, random, bends)?;
    let first = Ring::of(heap, &chain.corners)?
        .reversed()
        .ended_by(&[Spot::at(0, 0), Spot::at(east, 0)])?
        .with_middles(heap, random)?;
    let second = chain
        .with_moved(place, way)
        .under(Motion::by(Spot::at(0, raised)))
        .ended_by(&[Spot::at(east, 16), Spot::at(0, 16)])?;
    Ok(Pair { first, second })
}
