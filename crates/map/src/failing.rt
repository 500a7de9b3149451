// Why a request is not answered.
ghost use Rattle.std.specs.Prelude.{◌≡◌};
ghost use Rattle.map.specs.declared.failing.AskError.TheVariants.{Refused, OutOfMemory};

use std::alloc::{AllocError, AllocFailed};
use std::error::Error;
use std::fmt;
use terms::Refusal;

#[derive(Clone, Copy, PartialEq, Eq, Debug)]
pub enum AskError {
    // The machine refused it; nothing is changed.
    Refused(Refusal),
    // It was done or refused, but not all that was shown could be kept.
    OutOfMemory,
}

impl AskError {
    ghost use Rattle.std.specs.Prelude.{◌≡◌, MatchResult};
    ghost use Rattle.map.specs.declared.failing.AskError.TheVariants.{Refused, OutOfMemory};

    // Why the machine refused, or the error that memory was wanting, to be handed on.
    pub fn refusal(self) -> Result<Refusal, AllocError>
        ensures { MatchResult result (λ why. self ≡ Refused why) (λ _. self ≡ OutOfMemory) }
    {
        match self {
            AskError::Refused(why) => Ok(why),
            AskError::OutOfMemory => Err(AllocError),
        }
    }
}

impl From<Refusal> for AskError {
    ghost from_gives = { λ why e. e ≡ Refused why };

    fn from(refusal: Refusal) -> AskError {
        AskError::Refused(refusal)
    }
}

// By hand, as the next one: a derived `From` has no contract, and clauses speak of this error.
impl From<AllocError> for AskError {
    ghost from_gives = { λ _ e. e ≡ OutOfMemory };

    fn from(_error: AllocError) -> AskError {
        AskError::OutOfMemory
    }
}

impl<T: Drop> From<AllocFailed<T>> for AskError {
    ghost from_gives = { λ _ e. e ≡ OutOfMemory };

    fn from(_failed: AllocFailed<T>) -> AskError {
        AskError::OutOfMemory
    }
}

impl fmt::Display for AskError {
    ghost use Rattle.std.specs.Prelude.{Some};
    ghost use Rattle.map.specs.Asking.{error_words};

    ghost output = { λ error. Some (error_words error) };

    fn fmt<W: fmt::Write>(&self, f: &mut fmt::Formatter<W>) -> fmt::Result {
        match self {
            AskError::Refused(why) => write!(f, "refused {}", u64::from(*why)),
            // The words of `AllocError`, written out, since its `Display` has no contract.
            AskError::OutOfMemory => f.write_str("memory allocation failed"),
        }
    }
}

impl Error for AskError {}
