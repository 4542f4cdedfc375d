use thiserror::Error;

/// Why a line is no command. Of several faults the one told is the first in this order: S04, S01,
/// S02, S03.
#[derive(Clone, Copy, Debug, PartialEq, Eq, Error)]
pub enum LineFault {
    /// S01: the first word is no command.
    #[error("S01 unknown word")]
    Unknown,
    /// S02: too few or too many words, or another word than `and` between two conditions.
    #[error("S02 words")]
    Words,
    /// S03: a word that has to be a number, a place, a kind of value, an operator or the sign of a
    /// condition is not one.
    #[error("S03 number")]
    Number,
    /// S05: a line of a session has more than 16777216 bytes. `parse_line` never answers it.
    #[error("S05 too large")]
    TooLarge,
    /// S04: the line is not UTF-8. A note is told as no text too.
    #[error("S04 not text")]
    NotText,
    /// E11: a growth was refused.
    #[error("E11 out of memory")]
    OutOfMemory,
}
