/// Where a trace lies in a file.
#[derive(Clone, Copy, Debug, PartialEq, Eq)]
pub struct Extent {
    /// The place of its first byte, counted from 0.
    pub start: u64,
    /// How many bytes it has.
    pub length: u64,
}
