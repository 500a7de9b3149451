// Why the slow way of looking has no answer.
use std::alloc::AllocError;
use thiserror::Error;

#[derive(Debug, Drop, Error)]
pub enum Fault {
    #[error("out of memory")]
    NoMemory(#[from(alloc)] AllocError),
    // It is counted, and never happens on grids so small.
    #[error("a number does not fit")]
    TooLarge,
}
