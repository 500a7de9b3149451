// Why a line of a register is no entry.
use phrase::BadDigits;
use std::alloc::{AllocError, AllocFailed};
use std::fmt;

// What is wrong with a line.
#[derive(Clone, Copy, PartialEq, Eq, Debug)]
pub enum Fault {
    // It does not begin with the number of a ground.
    NoNumber,
    // A number of 2^64 or more.
    TooLarge,
    // A word, or a sign, where a number should stand.
    NotANumber,
    // Brackets among the corners: more than one ring, or stray ones.
    Brackets,
    // A number is left over: a corner is two.
    OddCount,
    // A polygon that does not stand in two pairs of brackets, with a comma between corners and nowhere else.
    NotAPolygon,
    // The last corner of a ring is not the first again.
    NotClosed,
}

impl Fault {
    ghost use Rattle.std.specs.Prelude.{◌≡◌};
    ghost use Rattle.entries.specs.Reasons.{fault_words};

    // What is wrong, in words.
    pub fn text(self) -> &'static str
        ensures { result.now ≡ fault_words self }
    {
        match self {
            Fault::NoNumber => "no number of a ground at its beginning",
            Fault::TooLarge => "a number of 2^64 or more",
            Fault::NotANumber => "a word where a number should stand",
            Fault::Brackets => "more than one ring, or stray brackets",
            Fault::OddCount => "a number is left over",
            Fault::NotAPolygon =>
                "no polygon of corners with commas between them, in two pairs of brackets",
            Fault::NotClosed => "the last corner of the ring is not the first again",
        }
    }
}

impl fmt::Display for Fault {
    ghost use Rattle.std.specs.Prelude.{Some};
    ghost use Rattle.entries.specs.Reasons.{fault_words};

    ghost output = { λ fault. Some (fault_words fault) };

    fn fmt<W: fmt::Write>(&self, f: &mut fmt::Formatter<W>) -> fmt::Result {
        f.write_str(self.text())
    }
}

impl std::error::Error for Fault {}

impl From<BadDigits> for Fault {
    ghost use Rattle.std.specs.Prelude.{◌≡◌};
    ghost use Rattle.entries.specs.Digits.{digits_fault};

    ghost from_gives = { λ bad fault. fault ≡ digits_fault bad };

    fn from(bad: BadDigits) -> Self {
        match bad {
            BadDigits::NotADigit => Fault::NotANumber,
            BadDigits::TooLarge => Fault::TooLarge,
        }
    }
}

// Why no entry was read.
#[derive(Clone, Copy, PartialEq, Eq, Debug)]
pub enum ReadError {
    Wrong(Fault),
    OutOfMemory,
}

impl From<Fault> for ReadError {
    ghost use Rattle.std.specs.Prelude.{◌≡◌};
    ghost use Rattle.entries.specs.declared.fault.ReadError.TheVariants.{Wrong};

    ghost from_gives = { λ fault r. r ≡ Wrong fault };

    fn from(fault: Fault) -> Self {
        ReadError::Wrong(fault)
    }
}

// By hand, as the next one: a derived `From` has no contract, and clauses speak of this error.
impl From<AllocError> for ReadError {
    ghost use Rattle.std.specs.Prelude.{◌≡◌};
    ghost use Rattle.entries.specs.declared.fault.ReadError.TheVariants.{OutOfMemory};

    ghost from_gives = { λ _ r. r ≡ OutOfMemory };

    fn from(_error: AllocError) -> Self {
        ReadError::OutOfMemory
    }
}

impl<T: Drop> From<AllocFailed<T>> for ReadError {
    ghost use Rattle.std.specs.Prelude.{◌≡◌};
    ghost use Rattle.entries.specs.declared.fault.ReadError.TheVariants.{OutOfMemory};

    ghost from_gives = { λ _ r. r ≡ OutOfMemory };

    fn from(_refused: AllocFailed<T>) -> Self {
        ReadError::OutOfMemory
    }
}
