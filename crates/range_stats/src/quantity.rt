/// A number of the traces whose range is told.
#[derive(Debug, Clone, Copy, PartialEq, Eq)]
pub enum Quantity {
    Inline,
    Crossline,
    Offset,
    /// The x coordinate under the trace's coordinate scalar.
    X,
    /// The y coordinate under the trace's coordinate scalar.
    Y,
}
