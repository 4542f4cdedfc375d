// The text of a line, cut and made safe for a terminal.
use crate::note::Note;
use std::fmt;

// So many characters are shown.
const MOST: usize = 60;

/// The first 60 characters of a line, and `..` where it has more. A tab is shown as a blank; a
/// `?` stands for each other character that a terminal might obey, and for what is no UTF-8.
#[derive(Drop)]
pub(crate) struct Shown<'a>(pub(crate) &'a Note);

impl fmt::Display for Shown<'_> {
    fn fmt<W: fmt::Write>(&self, f: &mut fmt::Formatter<W>) -> fmt::Result {
        let mut seen = 0usize;
        for chunk in self.0.bytes().utf8_chunks() {
            seen = show(f, chunk.valid(), seen)?;
            if !chunk.invalid().is_empty() {
                seen = show(f, "?", seen)?;
            }
        }
        if seen > MOST || !self.0.is_whole() {
            f.write_str("..")?;
        }
        Ok(())
    }
}

// Shows what there is room for behind so many characters. How many it would be with all.
fn show<W: fmt::Write>(
    f: &mut fmt::Formatter<W>,
    text: &str,
    before: usize,
) -> Result<usize, fmt::Error> {
    let mut seen = before;
    for character in text.chars() {
        if seen < MOST {
            f.write_char(safe(character))?;
        }
        seen = seen.saturating_add(1);
    }
    Ok(seen)
}

// What is shown for a character: never one of a control sequence, of another writing direction, or
// of no width.
fn safe(character: char) -> char {
    match character {
        '\t' => ' ',
        '\u{ad}'
        | '\u{61c}'
        | '\u{200b}'..='\u{200f}'
        | '\u{2028}'..='\u{202e}'
        | '\u{2060}'..='\u{206f}'
        | '\u{feff}' => '?',
        _ if character.is_control() => '?',
        _ => character,
    }
}
