// The grounds of a register, in the machine and as they were read.
use entries::{Fault, Ground, ReadError, read_entry, refusal_text};
use map::{Machine, Request};
use std::alloc::{AllocError, Global};
use thiserror::Error;

#[derive(Drop)]
pub struct Book {
    pub machine: Machine,
    // Those that the machine has taken, in the order of the file.
    pub grounds: Vec<Ground>,
    pub corners: u64,
    // How many lines were not taken.
    pub refused: u64,
}

// Why a line of the register was not taken.
#[derive(Debug, Drop, Error)]
pub enum NotTaken {
    #[error("not understood: {0}")]
    NotUnderstood(Fault),
    // A ground that the machine refused, and why.
    #[error("ground {number}: {why}")]
    Refused { number: u64, why: String },
    #[error("out of memory")]
    OutOfMemory(#[from(alloc)] AllocError),
}

impl From<ReadError> for NotTaken {
    fn from(error: ReadError) -> Self {
        match error {
            ReadError::Wrong(fault) => NotTaken::NotUnderstood(fault),
            ReadError::OutOfMemory => AllocError.into(),
        }
    }
}

impl Book {
    pub(crate) fn new(heap: Global) -> Result<Book, AllocError> {
        Ok(Book {
            machine: Machine::new(heap)?,
            grounds: Vec::new(heap),
            corners: 0,
            refused: 0,
        })
    }

    fn put(&mut self, heap: Global, number: u64, row: Vec<u64>) -> Result<(), NotTaken> {
        let mut shown = Vec::new(heap);
        let request = Request::Put {
            number,
            row: row.as_slice(),
        };
        if let Err(error) = self.machine.ask(request, &mut shown) {
            let why = refusal_text(heap, u64::from(error.refusal()?), number, row.as_slice())?;
            return Err(NotTaken::Refused { number, why });
        }
        self.corners = self.corners.saturating_add(row.len() as u64 / 2);
        self.grounds.push(Ground { number, row })?;
        Ok(())
    }

    // Takes a line of the register, without its newline.
    pub(crate) fn take(&mut self, heap: Global, line: &[u8]) -> Result<(), NotTaken> {
        match read_entry(heap, line)? {
            None => Ok(()),
            Some(Ground { number, row }) => self.put(heap, number, row),
        }
    }
}
