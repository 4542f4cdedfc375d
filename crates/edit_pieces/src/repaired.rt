// How a repair of FILE itself ended.
use crate::unfit::Unfit;
use journal_save::SaveError;
use std::io::Error;

/// How a repair of FILE itself ended.
#[derive(Debug, Drop)]
pub enum Repaired {
    /// None was begun. FILE is as it was.
    NotBegun,
    /// FILE is the edited file, and outlives a power cut as such.
    Saved,
    /// The edits need a new file. FILE is as it was.
    Unfit(Unfit),
    /// What FILE or its folder took earlier did not reach the disk. FILE is as it was.
    Unsettled(Error),
    /// The save did not come to its end.
    Failed(SaveError),
}
