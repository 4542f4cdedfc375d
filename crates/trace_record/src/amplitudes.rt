/// The least, the greatest and the sum of the values of at least one sample, as in `Statistics`.
#[derive(Debug, Clone, Copy, PartialEq, Eq)]
pub struct Amplitudes {
    pub least: i128,
    pub greatest: i128,
    pub sum: i128,
}
