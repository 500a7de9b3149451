// What can be wrong, in words.
use raster::Flaw;
use std::alloc::AllocError;
use std::io;
use thiserror::Error;

#[derive(Debug, Drop, Error)]
pub enum Problem {
    // Not the words that are wanted.
    #[error("say: draw FILE, or: draw FILE x y step columns rows")]
    Usage,
    #[error("not a whole number, or too large: {0}")]
    NoNumber(String),
    #[error("{0}")]
    BadWindow(#[from] Flaw),
    #[error("cannot read {0}: {1}")]
    Unreadable(String, io::Error),
    #[error("there are no grounds to draw in {0}")]
    NoGrounds(String),
    #[error("out of memory")]
    OutOfMemory(#[from(alloc)] AllocError),
    // The picture cannot be written.
    #[error("cannot write the picture: {0}")]
    Unwritable(#[from] io::Error),
}
