use thiserror::Error;

/// Why a session does not do what a line says to it itself, or does not run a line.
#[derive(Clone, Copy, Debug, PartialEq, Eq, Error)]
pub enum SessionFault {
    /// S06: the last line has no line feed: what sent it may have been cut off, so it is not run.
    #[error("S06 cut off")]
    CutOff,
    /// S07: there is nowhere to save to.
    #[error("S07 no out")]
    NoOut,
    /// S08: the save failed, when the new file had taken so many bytes.
    #[error("S08 save failed after {0} bytes")]
    SaveFailed(u64),
}
