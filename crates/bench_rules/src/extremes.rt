/// The least and the greatest of some numbers, and the first and the last of them.
#[derive(Clone, Copy, Debug, PartialEq, Eq)]
pub struct Extremes {
    pub least: i128,
    pub greatest: i128,
    pub first: i128,
    pub last: i128,
}
