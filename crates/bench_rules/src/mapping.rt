/// Places of the trace header that the geometry names are bound to at once.
#[derive(Clone, Copy, Debug, PartialEq, Eq)]
pub enum Mapping {
    /// The field record as the inline, the trace in it as the crossline, and the position of the
    /// group as x and y.
    Shot,
    /// The six geometry names at their own places, as after a load.
    Usual,
}
