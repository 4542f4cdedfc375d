use thiserror::Error;

/// What a read or a write that failed answers. It has taken nothing from the reader, and added
/// nothing to the writer.
#[derive(Clone, Copy, Debug, PartialEq, Eq, Error)]
#[error("the device failed")]
pub struct Failed;
