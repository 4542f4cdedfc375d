use thiserror::Error;

/// A write that failed when the writer had taken `written` bytes, the first ones.
#[derive(Clone, Copy, Debug, PartialEq, Eq, Error)]
#[error("the device failed after {written} bytes")]
pub struct WriteFault {
    pub written: u64,
}
