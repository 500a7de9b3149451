// The machine with a memory of its own.
ghost use Rattle.std.specs.Prelude.{◌≡◌, IfOk, vec_len};
ghost use Rattle.map.specs.Machine.{own};
ghost use Rattle.map.specs.Asking.{event_said, RanThrough};

use crate::asking::run;
use crate::event::Request;
use crate::failing::AskError;
use crate::layout::MEMORY_LENGTH;
use std::alloc::{AllocError, Global};

// A map and all that it keeps: its memory always has the machine's length. It is no boxed array, since that would first stand on the stack.
#[derive(Drop)]
pub struct Machine {
    memory: Vec<u64>,
    ghost sized: { vec_len memory ≡ 262144 },
}

impl Machine {
    // A map with no grounds.
    pub fn new(heap: Global) -> Result<Machine, AllocError>
        ensures { IfOk result (λ m. m.memory.items ≡ own.start) }
    {
        let memory = vec![in heap; 0; MEMORY_LENGTH]?;
        Ok(Machine { memory })
    }

    // Asks, goes on till it has ended, and adds the numbers that are shown to `shown`. For want of memory some of these may be missing.
    pub fn ask(&mut self, request: Request<'_>, shown: &mut Vec<u64>) -> Result<(), AskError>
        ensures { RanThrough self.old.memory.items (event_said request.entry) self.new.memory.items shown.old.items shown.new.items result }
    {
        run(self.memory.as_mut_slice(), request, shown)
    }
}
