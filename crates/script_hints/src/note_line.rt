// What is told of a refused line.
use crate::line_hint::hint_of;
use crate::note::Note;
use crate::shown::Shown;
use std::fmt;

/// `segywb: SCRIPT:LINE: REFUSAL: TEXT (HINT)`, one line without its line feed: the script's name
/// as given, the line's number from 1, why it is refused, its first 60 characters, and what may be
/// meant, where that can be told.
#[derive(Drop)]
pub struct NoteLine<'a> {
    /// The name of the script.
    pub script: &'a str,
    /// The refused line.
    pub note: &'a Note,
}

impl fmt::Display for NoteLine<'_> {
    fn fmt<W: fmt::Write>(&self, f: &mut fmt::Formatter<W>) -> fmt::Result {
        let script = self.script;
        let number = self.note.number();
        let fault = self.note.fault();
        let shown = Shown(self.note);
        let hint = hint_of(self.note);
        write!(f, "segywb: {script}:{number}: {fault}: {shown}{hint}")
    }
}
