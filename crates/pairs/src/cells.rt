// A second way to tell how two grounds lie, with code of its own, that looks at points only: the meridians of all corners and crossings cut the map into strips,
// amid a strip the edges pass at certain heights, and between two of these nothing changes. So a look just above each height sees every part of the map.
use crate::fault::Fault;
use crate::fraction::Fraction;
use crate::ring::Ring;
use crate::seen::Seen;
use crate::segment::Segment;
use std::alloc::Global;

#[derive(Clone, Copy)]
enum Of {
    First,
    Second,
}

// An edge that passes amid a strip.
#[derive(Clone, Copy)]
struct Passage {
    of: Of,
    height: Fraction,
}

fn is_there(meridians: &[Fraction], new: Fraction) -> Result<bool, Fault> {
    for old in meridians.iter() {
        if !old.is_below(new)? && !new.is_below(*old)? {
            return Ok(true);
        }
    }
    Ok(false)
}

fn add(meridians: &mut Vec<Fraction>, new: Fraction) -> Result<(), Fault> {
    if !is_there(meridians, new)? {
        meridians.push(new)?;
    }
    Ok(())
}

fn add_corners(meridians: &mut Vec<Fraction>, segments: &[Segment]) -> Result<(), Fault> {
    for segment in segments.iter() {
        add(meridians, Fraction::whole(segment.from.x))?;
    }
    Ok(())
}

// Adds where a segment comes to others.
fn add_contacts(
    meridians: &mut Vec<Fraction>,
    one: Segment,
    others: &[Segment],
    seen: &mut Seen,
) -> Result<(), Fault> {
    for other in others.iter() {
        if let Some(contact) = one.contact(*other)? {
            add(meridians, contact.meridian)?;
            seen.on_both = true;
            seen.edges_cross |= contact.is_crossing;
        }
    }
    Ok(())
}

// Some corner of the ones lies on one of the others.
fn corner_on(ones: &[Segment], others: &[Segment]) -> Result<bool, Fault> {
    for one in ones.iter() {
        for other in others.iter() {
            if other.has(one.from)? {
                return Ok(true);
            }
        }
    }
    Ok(false)
}

// The nearest meridian to the east.
fn next_east(meridians: &[Fraction], west: Fraction) -> Result<Option<Fraction>, Fault> {
    let mut nearest: Option<Fraction> = None;
    for meridian in meridians.iter() {
        if !west.is_below(*meridian)? {
            continue;
        }
        let nearer = match nearest {
            None => true,
            Some(east) => meridian.is_below(east)?,
        };
        if nearer {
            nearest = Some(*meridian);
        }
    }
    Ok(nearest)
}

fn add_passages(
    passages: &mut Vec<Passage>,
    of: Of,
    segments: &[Segment],
    amid: Fraction,
) -> Result<(), Fault> {
    for segment in segments.iter() {
        if let Some(height) = segment.height(amid)? {
            passages.push(Passage { of, height })?;
        }
    }
    Ok(())
}

// Just above a height: whether the edges at that height and below are odd, of the first and of the second.
fn inside_above(passages: &[Passage], height: Fraction) -> Result<(bool, bool), Fault> {
    let mut in_first = false;
    let mut in_second = false;
    for passage in passages.iter() {
        if height.is_below(passage.height)? {
            continue;
        }
        match passage.of {
            Of::First => in_first = !in_first,
            Of::Second => in_second = !in_second,
        }
    }
    Ok((in_first, in_second))
}

// The edges of two rings.
#[derive(Drop)]
struct Borders {
    first: Vec<Segment>,
    second: Vec<Segment>,
}

impl Borders {
    fn look_amid(&self, heap: Global, amid: Fraction, seen: &mut Seen) -> Result<(), Fault> {
        let mut passages = Vec::new(heap);
        add_passages(&mut passages, Of::First, &self.first, amid)?;
        add_passages(&mut passages, Of::Second, &self.second, amid)?;
        for passage in passages.iter() {
            let (in_first, in_second) = inside_above(&passages, passage.height)?;
            seen.note(in_first, in_second);
        }
        Ok(())
    }

    // All meridians, and where the borders come to each other.
    fn cut_strips(&self, heap: Global, seen: &mut Seen) -> Result<Vec<Fraction>, Fault> {
        let mut meridians = Vec::new(heap);
        add_corners(&mut meridians, &self.first)?;
        add_corners(&mut meridians, &self.second)?;
        for segment in self.first.iter() {
            add_contacts(&mut meridians, *segment, &self.second, seen)?;
        }
        Ok(meridians)
    }

    fn look_along(&self, heap: Global, seen: &mut Seen) -> Result<(), Fault> {
        let meridians = self.cut_strips(heap, seen)?;
        for west in meridians.iter() {
            if let Some(east) = next_east(&meridians, *west)? {
                self.look_amid(heap, west.middle(east)?, seen)?;
            }
        }
        Ok(())
    }
}

// What there is to be seen of two rings.
pub(crate) fn look(heap: Global, first: &Ring, second: &Ring) -> Result<Seen, Fault> {
    let borders = Borders {
        first: Segment::all(heap, first)?,
        second: Segment::all(heap, second)?,
    };
    let mut seen = Seen {
        on_both: corner_on(&borders.first, &borders.second)?
            || corner_on(&borders.second, &borders.first)?,
        ..Seen::default()
    };
    borders.look_along(heap, &mut seen)?;
    Ok(seen)
}
