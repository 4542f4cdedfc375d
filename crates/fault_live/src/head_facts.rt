/// What the faults need of the file's headers.
#[derive(Debug, Clone, Copy, PartialEq, Eq)]
pub struct HeadFacts {
    /// The number of traces as bytes 3513-3520 give it.
    pub trace_count: u64,
    /// How many lines of the textual header do not begin with `C` in its code.
    pub lines: u32,
    /// The sample interval, bytes 3217-3218.
    pub interval: u16,
    /// The revision, bytes 3501 and 3502.
    pub major: u8,
    pub minor: u8,
}
