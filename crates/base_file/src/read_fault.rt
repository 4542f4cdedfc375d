use thiserror::Error;

/// Why bytes of a base were not read.
#[derive(Clone, Copy, Debug, PartialEq, Eq, Error)]
pub enum ReadFault {
    /// The file failed, or has fewer bytes than it had.
    #[error("the file could not be read")]
    ReadFailed,
    /// The file gives other bytes than it gave when it was loaded.
    #[error("the file is no longer what was loaded")]
    Changed,
    /// More than 2^62 bytes, or more at once than there is room for.
    #[error("too many bytes")]
    TooLarge,
}
