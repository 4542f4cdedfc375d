use thiserror::Error;

/// Why not all bytes of a reader were read.
#[derive(Clone, Copy, Debug, PartialEq, Eq, Error)]
pub enum ReadFault {
    /// A read failed.
    #[error("the device failed")]
    ReadFailed,
    /// There are more bytes than the limit.
    #[error("more bytes than may be read")]
    TooLarge,
    /// A growth was refused.
    #[error("out of memory")]
    OutOfMemory,
}
