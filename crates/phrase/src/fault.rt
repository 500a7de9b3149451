// Why a line gives no command.
ghost use Rattle.std.specs.Prelude.{◌≡◌};
ghost use Rattle.phrase.specs.declared.fault.NotUnderstood.TheVariants.{OutOfMemory};

use std::alloc::{AllocError, AllocFailed};

#[derive(Clone, Copy, PartialEq, Eq, Debug)]
pub enum NotUnderstood {
    // The line is no command.
    Unreadable,
    OutOfMemory,
}

// By hand, as the next one: a derived `From` has no contract, and clauses speak of this error.
impl From<AllocError> for NotUnderstood {
    ghost from_gives = { λ _ r. r ≡ OutOfMemory };

    fn from(_error: AllocError) -> Self {
        NotUnderstood::OutOfMemory
    }
}

impl<T: Drop> From<AllocFailed<T>> for NotUnderstood {
    ghost from_gives = { λ _ r. r ≡ OutOfMemory };

    fn from(_refused: AllocFailed<T>) -> Self {
        NotUnderstood::OutOfMemory
    }
}
