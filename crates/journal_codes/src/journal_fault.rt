// Why bytes are no journal of a file.
use thiserror::Error;

/// Why bytes are no journal of this FILE.
#[derive(Clone, Copy, Debug, PartialEq, Eq, Error)]
pub enum JournalFault {
    /// They do not begin as a journal does.
    #[error("it is no journal of a repair")]
    NoJournal,
    /// A journal that another version of the program wrote.
    #[error("it is a journal of another version of the program")]
    OtherVersion,
    /// FILE had another length when it was made.
    #[error("it is a journal of a file of another length")]
    OtherLength,
    /// It is of a file with another inode.
    #[error("it is a journal of another file")]
    OtherFile,
    /// It is of a file that was made at another time: FILE was made anew since.
    #[error("it is a journal of a file that is gone, and FILE was made anew since")]
    OtherBirth,
    /// Bytes of it are missing or changed: it is too short, a piece does not end or lies outside
    /// FILE, or its digest is another.
    #[error("it is cut or rotten")]
    Broken,
}
