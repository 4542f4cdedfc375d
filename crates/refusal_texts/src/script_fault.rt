use thiserror::Error;

/// Why a script is not run.
#[derive(Clone, Copy, Debug, PartialEq, Eq, Error)]
pub enum ScriptFault {
    /// P01: a read of the script failed.
    #[error("P01 read failed")]
    ReadFailed,
    /// P02: the script has more than 16777216 bytes.
    #[error("P02 too large")]
    TooLarge,
    /// P03: a growth was refused.
    #[error("P03 out of memory")]
    OutOfMemory,
}
