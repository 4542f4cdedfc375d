/// What a word writes in a format.
#[derive(Clone, Copy, Debug, PartialEq)]
pub enum Reading {
    /// A value of the format, or the infinity or the NaN that the word names.
    Value(f64),
    /// A decimal that is past the greatest value of its sign: it rounds to an infinity.
    PastGreatest { negative: bool },
}
