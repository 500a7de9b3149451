// A memory that is full, by grounds and by corners, and one that holds garbage.
use crate::memory::Machine;
use crate::ring::Ring;
use figures::Random;
use map::{MEMORY_LENGTH, Told};
use std::alloc::{AllocError, Global};
use std::fmt;
use std::ops::Range;
use terms::{Point, Refusal};

// How often something was asked, and how often the answer was not the one that it should be.
#[derive(Clone, Copy, Default)]
pub struct Outcome {
    asked: u64,
    wrong: u64,
}

impl Outcome {
    fn note(&mut self, right: bool) {
        self.asked = self.asked.wrapping_add(1);
        self.wrong = self.wrong.wrapping_add(u64::from(!right));
    }

    fn note_full(&mut self, told: Told) {
        self.note(told == Told::No(u64::from(Refusal::NoRoom)));
    }
}

impl fmt::Display for Outcome {
    fn fmt<W: fmt::Write>(&self, f: &mut fmt::Formatter<W>) -> fmt::Result {
        write!(
            f,
            "{} answers looked at; {} are wrong",
            self.asked, self.wrong
        )
    }
}

// The south-west corner of the triangle of a number, which lies apart from all others: 32 columns, ten ells apart.
fn corner(number: u64) -> (u64, u64) {
    (
        (number % 32).wrapping_mul(10),
        (number / 32 % 64).wrapping_mul(10),
    )
}

fn triangle(number: u64) -> [u64; 6] {
    let (x, y) = corner(number);
    [x, y, x.wrapping_add(4), y, x, y.wrapping_add(4)]
}

// A point inside the triangle of a number.
fn inside(number: u64) -> Point {
    let (x, y) = corner(number);
    Point {
        a: x.wrapping_mul(2).wrapping_add(1),
        b: y.wrapping_mul(2).wrapping_add(1),
        w: 2,
    }
}

// At a point inside each triangle of a range its ground is told, alone, if it is there, and none otherwise.
fn are_told(
    heap: Global,
    machine: &mut Machine,
    numbers: Range<u64>,
    there: bool,
    outcome: &mut Outcome,
) -> Result<(), AllocError> {
    for number in numbers {
        let told = machine.at_point(heap, inside(number))?;
        let own = [number];
        outcome.note(told.as_slice() == &own[..usize::from(there)]);
    }
    Ok(())
}

fn put_all(machine: &mut Machine, numbers: Range<u64>, outcome: &mut Outcome) {
    for number in numbers {
        outcome.note(machine.put(number, &triangle(number)) == Told::Done);
    }
}

// 1,024 grounds: the next is refused with 7; after drops there is room again, and every ground still answers right.
pub(crate) fn full_of_grounds(heap: Global) -> Result<Outcome, AllocError> {
    let mut machine = Machine::new(heap)?;
    let mut outcome = Outcome::default();
    put_all(&mut machine, 0..1024, &mut outcome);
    outcome.note_full(machine.put(1024, &triangle(1024)));
    are_told(heap, &mut machine, 0..1024, true, &mut outcome)?;
    for number in 300..400 {
        outcome.note(machine.remove(number) == Told::Done);
    }
    are_told(heap, &mut machine, 300..400, false, &mut outcome)?;
    are_told(heap, &mut machine, 0..300, true, &mut outcome)?;
    put_all(&mut machine, 1024..1124, &mut outcome);
    outcome.note_full(machine.put(300, &triangle(300)));
    are_told(heap, &mut machine, 400..1124, true, &mut outcome)?;
    Ok(outcome)
}

// 128 grounds of 256 corners: the next is refused with 7, however small; after one drop there is room for it.
pub(crate) fn full_of_corners(heap: Global) -> Result<Outcome, AllocError> {
    let mut machine = Machine::new(heap)?;
    let mut outcome = Outcome::default();
    let mut comb = Ring::comb(heap, 126, 4)?;
    comb.insert_corner_on_base()?;
    for number in 0..128 {
        outcome.note(machine.put(number, &comb.row) == Told::Done);
    }
    outcome.note_full(machine.put(128, &triangle(0)));
    let all = machine.at_point(heap, inside(0))?;
    outcome.note(all.len() == 128 && all.contains(&127));
    outcome.note(machine.remove(64) == Told::Done);
    outcome.note(machine.put(128, &triangle(0)) == Told::Done);
    let all = machine.at_point(heap, inside(0))?;
    outcome.note(all.len() == 128 && all.contains(&128));
    Ok(outcome)
}

// Any numbers in the memory, and any commands: each is answered with done, a row or a refusal that there is, and the memory stays as long as it is.
pub(crate) fn garbage(heap: Global, seed: u64) -> Result<Outcome, AllocError> {
    let mut machine = Machine::new(heap)?;
    let mut random = Random::new(seed);
    let mut outcome = Outcome::default();
    for round in 0..24u32 {
        machine.fill_with_garbage(&mut random, 300u32.wrapping_shr(round % 8).wrapping_add(2));
        for _ in 0..400u32 {
            machine.forge_head(&mut random);
            let told = machine.any_command(&mut random);
            outcome.note(matches!(told, Told::Shows(_) | Told::Done | Told::No(0..=5 | 7)));
            outcome.note(machine.len() == MEMORY_LENGTH);
        }
    }
    Ok(outcome)
}
