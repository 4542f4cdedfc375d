//! The memory that there is, with how often it was refused. What takes memory is given a `Room`,
//! and hands it each answer of std:
//!
//! ```text
//! pub fn add(&mut self, room: &mut Room, number: u64) -> Result<(), OutOfMemory>
//!     ensures memory { Rises (IsErr result) room.old room.new }
//! {
//!     room.told_back(self.numbers.push(number))
//! }
//! ```
//!
//! The count rises by one where std refuses, and at no other time. So the clause `memory` says that
//! the call gives up only where, in this very call, a growth was refused: it cannot give up without
//! asking, nor hand out a refusal of before. A call that meets a refusal and goes on without that
//! memory may still say `Ok`. Where other faults stand beside it, the clause says it of that one
//! fault: `Rises (IsErrOf result Fault.OutOfMemory) room.old room.new`.
//!
//! A caller whose contract says nothing of memory makes a room of its own, `Room::new(alloc)`.
//!
//! No clause says that std asks the allocator before it refuses: that is std's word.
#![tactic(auto)]

mod heap;
mod out_of_memory;

pub use crate::heap::Room;
pub use crate::out_of_memory::OutOfMemory;
