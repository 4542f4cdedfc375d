/// How a line of a session was read.
#[derive(Clone, Copy, Debug, PartialEq, Eq)]
pub(crate) enum LineRead {
    /// Its bytes are held.
    Text,
    /// It has more than 16777216 bytes.
    TooLarge,
    /// No memory held its bytes.
    Lost,
}
