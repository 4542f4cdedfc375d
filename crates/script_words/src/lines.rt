// The lines of a script.
ghost use Rattle.std.specs.Prelude.{◌≡◌, ◌∷◌, [], IfSome, IfNone};
ghost use Rattle.script_words.specs.Words.{without_return};

use crate::split::split_once;
use std::marker::Model;

/// The lines of a script that are still to be read, seen as their list.
#[derive(Drop)]
pub struct Lines<'a> {
    rest: &'a [u8],
}

impl<'a> Model for Lines<'a> {
    ghost use Rattle.std.specs.Prelude.{ℕ, List};
    ghost use Rattle.script_words.specs.Words.{script_lines};

    ghost Value = { List (List ℕ) };

    ghost view = { λ l. script_lines l.rest.now };
}

impl<'a> Lines<'a> {
    ghost use Rattle.script_words.specs.Words.{script_lines};

    pub fn new(script: &'a [u8]) -> Lines<'a>
        ensures { result ≡ script_lines script.now }
    {
        Lines { rest: script }
    }

    /// The next line, without its line feed and one carriage return.
    pub fn next(&mut self) -> Option<&'a [u8]>
        ensures none { IfNone result (self.old ≡ []) }
        ensures some { IfSome result (λ line. self.old ≡ line.now ∷ self.new) }
    {
        let script = self.rest;
        match split_once(script, b'\n') {
            Some((part, rest)) => {
                self.rest = rest;
                Some(strip_return(part))
            }
            None if script.is_empty() => None,
            None => {
                self.rest = b"";
                Some(strip_return(script))
            }
        }
    }
}

/// The line without one carriage return at its end.
pub fn strip_return(line: &[u8]) -> &[u8]
    ensures { result.now ≡ without_return line.now }
{
    line.strip_suffix(b"\r").unwrap_or(line)
}
