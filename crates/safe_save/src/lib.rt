//! Saves a file over the one that is there, and never costs the only copy: the bytes go to a new
//! file beside it, which is synced and then renamed over it.
//!
//! `Folder` is what a save needs of the system, seven calls, and `Save` the writer: it makes the
//! new file at the first write. `end_save` ends a save, and `give_up` one in which a write failed.
//! At every moment, and after every failure at every step, a crash leaves under OUT what was there
//! or the whole new file with its mode (`any_moment`), for every folder whose calls do what the
//! trait says; where `end_save` refuses, a step failed, or the folder's sync, and is told
//! (`cause`). `FileFolder` is the system's own, of which no clause says what it shows; `FakeFolder`
//! is one in memory, which shows that the trait's clauses can be met.
//!
//! `SavePlace` is a place that takes one save after another, as OUT of a session does;
//! `MemoryPlace` is one in memory.
#![tactic(auto)]

mod beside;
mod bounded_file;
mod buffered;
mod digest;
mod fake_folder;
mod file_folder;
mod folder;
mod limits;
mod memory_place;
mod original;
mod out_path;
mod save;
mod save_error;
mod save_place;
mod standard_streams;
mod times;

pub use crate::beside::keep_from_clearing;
pub use crate::bounded_file::BoundedFile;
pub use crate::buffered::{end_save, give_up};
pub use crate::fake_folder::{FakeFile, FakeFolder};
pub use crate::file_folder::FileFolder;
pub use crate::folder::Folder;
pub use crate::limits::{answers_limit, limit_in, messages_limit, place_in, size_limit};
pub use crate::memory_place::MemoryPlace;
pub use crate::original::{Original, Sight};
pub use crate::out_path::resolve;
pub use crate::save::Save;
pub use crate::save_error::{Fault, SaveError, Step};
pub use crate::save_place::{Ended, NotBegun, SavePlace};
pub use crate::standard_streams::{StandIns, hold_standard_streams};
pub use crate::times::wait_of;
