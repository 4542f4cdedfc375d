// A place in memory, of which a clause knows what stands there.
ghost use Rattle.std.specs.Prelude.{◌≡◌, Some};

use crate::save_place::{Ended, NotBegun, SavePlace};
use std::alloc::Global;

/// A place in memory, for tests. It is nowhere where `is_nowhere` says so, and each save fails
/// while `fails` does.
#[derive(Drop)]
pub struct MemoryPlace {
    pub alloc: Global,
    pub bytes: Vec<u8>,
    pub is_nowhere: bool,
    pub fails: bool,
}

impl MemoryPlace {
    /// A place that holds nothing yet.
    pub fn new(alloc: Global) -> MemoryPlace {
        MemoryPlace {
            alloc,
            bytes: Vec::new(alloc),
            is_nowhere: false,
            fails: false,
        }
    }
}

impl SavePlace for MemoryPlace {
    ghost stands = { λ p. Some p.bytes.items };

    type Writer = Vec<u8>;

    fn begin(&mut self) -> Result<Vec<u8>, NotBegun> {
        if self.is_nowhere {
            return Err(NotBegun::NoPlace);
        }
        Ok(Vec::new(self.alloc))
    }

    fn end(&mut self, writer: Vec<u8>, is_whole: bool) -> Ended {
        if self.fails || !is_whole {
            return Ended::Failed {
                taken: writer.len() as u64,
            };
        }
        self.bytes = writer;
        Ended::Saved
    }
}
