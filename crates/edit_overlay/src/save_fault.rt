use base_file::ReadFault;
use thiserror::Error;

/// A save that failed when the writer had taken `written` bytes, the first ones of the file: the
/// writer failed, or the loaded bytes could not be read.
#[derive(Clone, Copy, Debug, PartialEq, Eq, Error)]
#[error("save failed after {written} bytes")]
pub struct SaveFault {
    pub written: u64,
    /// Why the loaded bytes could not be read; None where the writer failed.
    pub read: Option<ReadFault>,
}
