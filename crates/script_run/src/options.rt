use frame_cut::{Limits, Reading};

/// How a run goes.
#[derive(Clone, Copy, Debug, PartialEq, Eq)]
pub struct Options {
    /// What is asked for beside the bytes of the volume, when it is cut.
    pub reading: Reading,
    /// How large the volume may be.
    pub limits: Limits,
    /// Whether the first refused line is the last that is run.
    pub stop: bool,
    /// Whether the volume is saved behind the last line. A session, which saves by a word of its
    /// own too, saves nothing there where its last line is cut off.
    pub save: bool,
}
