// What a line says to a session itself.
ghost use Rattle.std.specs.Prelude.{◌≡◌};
ghost use Rattle.script_words.specs.Words.{words_of};
ghost use Rattle.script_words.specs.SessionWords.{session_word_of, word_to_session};

use crate::words::Words;
use std::str;

/// What a line says to a session itself.
#[derive(Clone, Copy, Debug, PartialEq, Eq)]
pub enum SessionWord {
    /// `save`: what is there now is to be saved.
    Save,
    /// `save` with more words behind it.
    SaveWithMore,
    /// Anything else: the line is one of a script.
    Other,
}

/// What a line, given as to [`parse_line`](crate::parse_line), says to a session itself. Takes no
/// memory.
pub fn session_word(line: &[u8]) -> SessionWord
    ensures { result ≡ session_word_of line.now }
{
    match str::from_utf8(line) {
        Ok(text) => said_by(Words::new(text)),
        Err(_) => SessionWord::Other,
    }
}

// What these words say to it.
fn said_by(mut words: Words) -> SessionWord
    ensures { result ≡ word_to_session (words_of words.entry) }
{
    let Some(word) = words.next() else {
        return SessionWord::Other;
    };
    if word != "save" {
        return SessionWord::Other;
    }
    match words.next() {
        None => SessionWord::Save,
        Some(_) => SessionWord::SaveWithMore,
    }
}
