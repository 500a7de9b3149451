// Pairs of random rings, many of which share corners and edges or parts of edges.
use crate::growth::Growth;
use crate::motion::Motion;
use crate::pair::Pair;
use crate::random::{Draw, Field};
use crate::ring::Ring;
use crate::segment::Segment;
use crate::spot::Spot;
use figures::Random;
use std::alloc::{AllocError, Global};

// How often a corner is tried to be added to a random ring, at most.
const MOST_TRIES: u32 = 12;

fn grid(random: &mut Random) -> Field {
    Field::square(random.below(4).wrapping_add(5))
}

fn any_ring(heap: Global, random: &mut Random, field: Field) -> Result<Ring, AllocError> {
    let tries = random.below(MOST_TRIES);
    Growth { tries, field }.ring(heap, random)
}

fn stretched_ring(heap: Global, random: &mut Random, factor: u32) -> Result<Ring, AllocError> {
    let field = grid(random);
    Ok(any_ring(heap, random, field)?.under(Motion::stretched(i64::from(factor))))
}

// A random ring that begins with an edge, either way round.
fn ring_on(
    heap: Global,
    random: &mut Random,
    edge: Segment,
    field: Field,
) -> Result<Ring, AllocError> {
    let tries = random.below(MOST_TRIES);
    let edge = if random.one_in(2) {
        edge
    } else {
        edge.reversed()
    };
    Growth { tries, field }.on_edge(heap, random, edge)
}

pub(crate) fn random(heap: Global, random: &mut Random) -> Result<Pair, AllocError> {
    let field = grid(random);
    let first = any_ring(heap, random, field)?;
    let second = any_ring(heap, random, field)?;
    Ok(Pair { first, second })
}

pub(crate) fn shared_edge(heap: Global, random: &mut Random) -> Result<Pair, AllocError> {
    let field = grid(random);
    let first = any_ring(heap, random, field)?;
    let place = random.place(first.corners.len());
    let second = ring_on(heap, random, first.edge(place), field)?;
    Ok(Pair { first, second })
}

// The other's edge begins and ends at thirds of an edge, or a third beyond it.
pub(crate) fn part_of_an_edge(heap: Global, random: &mut Random) -> Result<Pair, AllocError> {
    let first = stretched_ring(heap, random, 3)?;
    let place = random.place(first.corners.len());
    let edge = first.edge(place);
    let from = random.from(-1, 3);
    let to = from.wrapping_add(random.from(1, 2));
    let part = Segment {
        from: edge.part(from, 3),
        to: edge.part(to, 3),
    };
    let second = ring_on(heap, random, part, Field::square(22))?;
    Ok(Pair { first, second })
}

pub(crate) fn corner_on_edge(heap: Global, random: &mut Random) -> Result<Pair, AllocError> {
    let first = stretched_ring(heap, random, 2)?;
    let field = Field::square(14);
    let place = random.place(first.corners.len());
    let from = first.edge(place).part(1, 2);
    let to = random.spot(field);
    let second = ring_on(heap, random, Segment { from, to }, field)?;
    Ok(Pair { first, second })
}

pub(crate) fn corner_on_corner(heap: Global, random: &mut Random) -> Result<Pair, AllocError> {
    let field = grid(random);
    let first = any_ring(heap, random, field)?;
    let place = random.place(first.corners.len());
    let from = first.corner(place);
    let to = random.spot(field);
    let second = ring_on(heap, random, Segment { from, to }, field)?;
    Ok(Pair { first, second })
}

// Random rings; where twelfths of an edge lie on the other's border, a corner stands there. So most of the edges that would cross end at the crossing.
pub(crate) fn corners_on_crossings(heap: Global, random: &mut Random) -> Result<Pair, AllocError> {
    let field = Field::square(random.below(3).wrapping_add(3));
    let wide = Motion::stretched(12);
    let first = any_ring(heap, random, field)?.under(wide);
    let second = any_ring(heap, random, field)?.under(wide);
    let first = first.with_corners_on(heap, &second, 12)?;
    Ok(Pair { first, second })
}

// A small ring anywhere in, on or beside a large one.
pub(crate) fn nested(heap: Global, random: &mut Random) -> Result<Pair, AllocError> {
    let first = stretched_ring(heap, random, 4)?;
    let field = Field {
        corner: random.spot(Field::square(22)),
        width: 4,
        height: 4,
    };
    let second = any_ring(heap, random, field)?;
    Ok(Pair { first, second })
}

// With straight corners amid some edges; sometimes the other has one corner moved a little.
pub(crate) fn same_ring(heap: Global, random: &mut Random) -> Result<Pair, AllocError> {
    let ring = stretched_ring(heap, random, 2)?;
    let first = ring.with_middles(heap, random)?;
    let second = ring.with_middles(heap, random)?;
    if !random.one_in(3) {
        return Ok(Pair { first, second });
    }
    let place = random.place(second.corners.len());
    let way = Spot::at(random.from(-1, 3), random.from(-1, 3));
    Ok(Pair {
        first,
        second: second.with_moved(place, way),
    })
}

// The one south of a line, the other north of it, and then all laid askew, so that the boxes overlap.
pub(crate) fn skew_banks(heap: Global, random: &mut Random) -> Result<Pair, AllocError> {
    let south = Field {
        corner: Spot::at(0, 0),
        width: 6,
        height: 4,
    };
    let north = Field {
        corner: Spot::at(random.from(0, 2), random.from(3, 2)),
        width: 6,
        height: 4,
    };
    let askew = Motion {
        origin: Spot::at(8, 0),
        east: Spot::at(2, 1),
        north: Spot::at(-1, random.from(1, 2)),
    };
    let first = any_ring(heap, random, south)?.under(askew);
    let second = any_ring(heap, random, north)?.under(askew);
    Ok(Pair { first, second })
}
