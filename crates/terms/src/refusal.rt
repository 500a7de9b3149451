// Why a command is refused. What is refused changes nothing.
ghost use Rattle.std.specs.Prelude.{◌≡◌};
ghost use Rattle.terms.specs.Refusals.{refusal_number, NumbersRefusal};

#[derive(Clone, Copy, PartialEq, Eq, Debug)]
pub enum Refusal {
    OutOfRange = 1,
    NotKnown = 2,
    NotThere = 3,
    Taken = 4,
    NoGround = 5,
    NoRoom = 7,
}

// A number that is no refusal's.
#[derive(Clone, Copy, PartialEq, Eq, Debug)]
pub struct NoRefusal(pub u64);

// The number by which the refusal is told.
impl From<Refusal> for u64 {
    ghost from_gives = { λ why n. n ≡ refusal_number why };

    fn from(why: Refusal) -> u64 {
        why as u64
    }
}

// The refusal that has this number, if there is one.
impl TryFrom<u64> for Refusal {
    type Error = NoRefusal;

    ghost try_from_gives = { NumbersRefusal };

    fn try_from(number: u64) -> Result<Refusal, NoRefusal> {
        match number {
            1 => Ok(Refusal::OutOfRange),
            2 => Ok(Refusal::NotKnown),
            3 => Ok(Refusal::NotThere),
            4 => Ok(Refusal::Taken),
            5 => Ok(Refusal::NoGround),
            7 => Ok(Refusal::NoRoom),
            _ => Err(NoRefusal(number)),
        }
    }
}
