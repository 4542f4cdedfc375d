// What may be meant by a line that is refused.
use std::fmt;

/// What may be meant. Its text stands in brackets, behind a blank; that of none is empty.
#[derive(Clone, Copy, Debug, PartialEq, Eq)]
pub(crate) enum Hint {
    None,
    /// The word or name that is near.
    Near(&'static str),
    /// The word or name, which is written in small letters.
    Small(&'static str),
    /// The form of the command.
    Form(&'static str),
    /// This text.
    Text(&'static str),
}

impl fmt::Display for Hint {
    fn fmt<W: fmt::Write>(&self, f: &mut fmt::Formatter<W>) -> fmt::Result {
        match self {
            Hint::None => Ok(()),
            Hint::Near(word) => write!(f, " (did you mean {word}?)"),
            Hint::Small(word) => write!(f, " (in small letters: {word})"),
            Hint::Form(form) => write!(f, " (the form is {form})"),
            Hint::Text(text) => write!(f, " ({text})"),
        }
    }
}
