// How a save and a recovery end.
use journal_codes::JournalFault;
use std::io::Error;

/// Why a save did not come to its end.
#[derive(Debug, Drop)]
pub enum SaveError {
    /// FILE was never written. A journal may be left there that a call could not take away: a
    /// recovery then gives FILE as it is.
    Untouched(Error),
    /// A write failed, and FILE is the old file again.
    Undone(Error),
    /// A write failed, and so did putting the old bytes back: a recovery gives the old file.
    Interrupted(Error, RecoverError),
    /// FILE is the new file, but its journal may still be there, and a recovery may give the old
    /// one.
    NotSettled(Error),
}

/// Why a recovery did not come to its end. It may be tried again.
#[derive(Debug, Drop)]
pub enum RecoverError {
    /// What is there is no journal of FILE. Nothing was written.
    Refused(JournalFault),
    /// A call failed.
    Failed(Error),
}

impl From<Error> for RecoverError {
    ghost use Rattle.std.specs.Prelude.{◌≡◌};
    ghost use Rattle.journal_save.specs.declared.errors.RecoverError.TheVariants.{Failed};

    ghost from_gives = { λ error given. given ≡ Failed error };

    fn from(error: Error) -> RecoverError {
        RecoverError::Failed(error)
    }
}

/// What a recovery put back: so many bytes, in so many pieces.
#[derive(Clone, Copy, Debug, PartialEq, Eq)]
pub struct PutBack {
    pub pieces: u64,
    pub bytes: u64,
}
