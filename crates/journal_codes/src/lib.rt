//! The bytes of a journal: what a file had where a repair is going to write.
//!
//! A journal has a front of 40 bytes (a mark, a version, and the length, the inode and the time
//! of birth of the file), then its pieces (place, length, bytes), and at its end the MD5 digest of
//! all that is before. The file's device is not in it: its number may be another one once the
//! system has started again, and that is when a journal is needed.
//!
//! `front_of` and `head_of` write, `front_fault` and `head_in` read, and none of them
//! takes memory. `what_is_listed_is_read` is the law of the round trip.
#![tactic(auto)]

mod file_facts;
mod fronts;
mod heads;
mod journal_fault;
mod laws;
mod numbers;

pub use crate::file_facts::FileFacts;
pub use crate::fronts::{FRONT_BYTES, front_fault, front_of};
pub use crate::heads::{HEAD_BYTES, Head, PIECE_ROOM, head_in, head_of};
pub use crate::journal_fault::JournalFault;
pub use crate::laws::what_is_listed_is_read;

/// How many bytes the digest at a journal's end has.
pub const DIGEST_BYTES: usize = 16;
