use thiserror::Error;

/// Why a text is no line of a block.
#[derive(Clone, Copy, Debug, PartialEq, Eq, Error)]
pub enum TextFault {
    /// T01: more than 80 characters.
    #[error("too long")]
    TooLong,
    /// T02: a character has no byte in the code. The column of the first such, counted in
    /// characters from 1.
    #[error("no code for column {0}")]
    NoCode(u8),
}
