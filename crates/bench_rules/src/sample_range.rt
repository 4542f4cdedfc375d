/// Numbers of samples, counted from 0: from one of them by a step, which counts as 1 where it is 0,
/// up to another. None where the first is above the last.
#[derive(Clone, Copy, Debug, PartialEq, Eq)]
pub struct SampleRange {
    pub from: u32,
    pub to: u32,
    pub step: u32,
}
