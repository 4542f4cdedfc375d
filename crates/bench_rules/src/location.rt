use key_counts::Ratio;

/// Where a trace lies: its numbers as they stand, and its coordinates under its scalar.
#[derive(Debug, Clone, Copy, PartialEq, Eq)]
pub struct Location {
    pub inline: i32,
    pub crossline: i32,
    pub offset: i32,
    pub x: Ratio,
    pub y: Ratio,
}
