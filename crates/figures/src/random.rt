// Numbers that look random and come again from the same seed.
ghost use Rattle.std.specs.Prelude.{◌≡◌, ◌==◌};
ghost use Rattle.figures.specs.Drawing.{following, drawn, among};

use std::marker::Model;

// A linear congruential generator; a contract sees its state.
#[derive(Clone, Copy)]
pub struct Random {
    state: u64,
}

impl Model for Random {
    ghost use Rattle.std.specs.Prelude.{ℕ};

    ghost Value = { ℕ };

    ghost view = { λ r. r.state };

    ghost inverse = { λ n. record { state = n } };
}

impl Random {
    pub fn new(seed: u64) -> Self
        ensures { result ≡ seed }
    {
        Random { state: seed }
    }

    // A number of 32 bits: the upper half of the next state.
    pub fn number(&mut self) -> u32
        ensures goes_on { self.new ≡ following self.old }
        ensures value { result ≡ drawn self.new }
    {
        self.state = self
            .state
            .wrapping_mul(6364136223846793005)
            .wrapping_add(1442695040888963407);
        (self.state >> 32) as u32
    }

    // A number below `end`; 0 where `end` is 0.
    pub fn below(&mut self, end: u32) -> u32
        ensures goes_on { self.new ≡ following self.old }
        ensures value { result ≡ among (drawn self.new) end }
    {
        self.number().checked_rem(end).unwrap_or(0)
    }

    // Whether one of so many numbers is drawn, the first of them.
    pub fn one_in(&mut self, count: u32) -> bool
        ensures goes_on { self.new ≡ following self.old }
        ensures value { result ≡ (among (drawn self.new) count == 0) }
    {
        self.below(count) == 0
    }

    // A place in a row of so many; 0 where there is none. As `below`, in the width of places: by the one or the other there would be a conversion that may fail.
    pub fn place(&mut self, count: usize) -> usize
        ensures goes_on { self.new ≡ following self.old }
        ensures value { result ≡ among (drawn self.new) count }
    {
        (self.number() as usize).checked_rem(count).unwrap_or(0)
    }
}
