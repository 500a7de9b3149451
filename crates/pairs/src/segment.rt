// Edges as the slow way of looking has them: where two of them cross, and how high one passes at a meridian.
use crate::fault::Fault;
use crate::fraction::{Fraction, difference, product, sum};
use crate::ring::Ring;
use crate::spot::Spot;
use std::alloc::{AllocError, Global};

#[derive(Clone, Copy)]
pub struct Segment {
    pub from: Spot,
    pub to: Spot,
}

// Twice the area that two ways span, above 0 if the other is to the left. Checked, as all numbers of the slow way of looking: those of `Spot`, which the pairs are made
// with, would wrap.
fn spanned(way: Spot, other: Spot) -> Result<i128, Fault> {
    let left = product(i128::from(way.x), i128::from(other.y))?;
    let right = product(i128::from(way.y), i128::from(other.x))?;
    difference(left, right)
}

// How far the other goes the same way, below 0 if it goes back.
fn along(way: Spot, other: Spot) -> Result<i128, Fault> {
    let east = product(i128::from(way.x), i128::from(other.x))?;
    let north = product(i128::from(way.y), i128::from(other.y))?;
    sum(east, north)
}

// Where two segments that are not in line come to each other, and whether that is amid both of them.
#[derive(Clone, Copy)]
pub struct Contact {
    pub meridian: Fraction,
    pub is_crossing: bool,
}

// The share is of 0 to 1.
fn is_share(share: Fraction) -> bool {
    0 <= share.top && share.top <= share.bottom
}

fn is_amid(share: Fraction) -> bool {
    0 < share.top && share.top < share.bottom
}

impl Segment {
    fn way(self) -> Spot {
        self.from.way_to(self.to)
    }

    // The edges of a ring.
    // By places, since each goes on to the corner behind its own.
    pub(crate) fn all(heap: Global, ring: &Ring) -> Result<Vec<Segment>, AllocError> {
        (0..ring.corners.len())
            .map(|place| ring.edge(place))
            .collect(heap)
    }

    // So many of the parts of it, from its beginning on.
    pub(crate) fn part(self, share: i64, parts: u32) -> Spot {
        self.from.toward(self.to, share, parts)
    }

    // Gone the other way.
    pub(crate) fn reversed(self) -> Self {
        Segment {
            from: self.to,
            to: self.from,
        }
    }

    // The spot is in line with the ends, and sees them in opposite directions.
    pub(crate) fn has(self, spot: Spot) -> Result<bool, Fault> {
        let from = spot.way_to(self.from);
        let to = spot.way_to(self.to);
        Ok(spanned(from, to)? == 0 && along(from, to)? <= 0)
    }

    // The only place that two segments, not in line, have in common.
    pub(crate) fn contact(self, other: Segment) -> Result<Option<Contact>, Fault> {
        let bottom = spanned(self.way(), other.way())?;
        if bottom == 0 {
            return Ok(None);
        }
        let between = self.from.way_to(other.from);
        let share = Fraction::of(spanned(between, other.way())?, bottom)?;
        let other_share = Fraction::of(spanned(between, self.way())?, bottom)?;
        if !is_share(share) || !is_share(other_share) {
            return Ok(None);
        }
        let start = product(i128::from(self.from.x), share.bottom)?;
        let east = product(i128::from(self.way().x), share.top)?;
        let meridian = Fraction {
            top: sum(start, east)?,
            bottom: share.bottom,
        };
        let is_crossing = is_amid(share) && is_amid(other_share);
        Ok(Some(Contact {
            meridian,
            is_crossing,
        }))
    }

    // How high it passes at a meridian that no end stands on; nothing if it does not come there.
    pub(crate) fn height(self, meridian: Fraction) -> Result<Option<Fraction>, Fault> {
        let from_east = meridian.is_below(Fraction::whole(self.from.x))?;
        let to_east = meridian.is_below(Fraction::whole(self.to.x))?;
        if from_east == to_east {
            return Ok(None);
        }
        let way = self.way();
        let east = product(i128::from(self.from.x), meridian.bottom)?;
        let gone = difference(meridian.top, east)?;
        let run = product(i128::from(way.x), meridian.bottom)?;
        let start = product(i128::from(self.from.y), run)?;
        let rise = product(i128::from(way.y), gone)?;
        Ok(Some(Fraction::of(sum(start, rise)?, run)?))
    }
}
