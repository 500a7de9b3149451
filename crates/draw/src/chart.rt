// The grounds that are drawn.
ghost use Rattle.draw.specs.Showing.{SignTold};

use ground::Extent;
use map::{AskError, Machine, Request};
use raster::sign;
use std::alloc::{AllocError, Global};
use terms::Point;

// The grounds that the machine has taken, and the box around them all.
#[derive(Drop)]
pub struct Chart {
    machine: Machine,
    pub extent: Option<Extent>,
    shown: Vec<u64>,
}

impl Chart {
    pub(crate) fn new(heap: Global) -> Result<Chart, AllocError> {
        Ok(Chart {
            machine: Machine::new(heap)?,
            extent: None,
            shown: Vec::new(heap),
        })
    }

    pub(crate) fn put(&mut self, number: u64, row: &[u64]) -> Result<(), AskError> {
        self.machine
            .ask(Request::Put { number, row }, &mut self.shown)?;
        self.extent = match (self.extent, Extent::of(row)) {
            (Some(all), Some(one)) => Some(all.together(one)),
            (all, one) => all.or(one),
        };
        Ok(())
    }

    // The sign of what a point has.
    pub(crate) fn sign_at(&mut self, point: Point) -> Result<u8, AllocError>
        ensures { SignTold point self.old.machine.memory.items self.new.machine.memory.items result }
    {
        self.shown.clear();
        match self.machine.ask(Request::AtPoint(point), &mut self.shown) {
            Err(AskError::OutOfMemory) => Err(AllocError),
            // What is refused shows nothing.
            Ok(()) | Err(AskError::Refused(_)) => Ok(sign(self.shown.as_slice())),
        }
    }
}
