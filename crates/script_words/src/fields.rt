// Words that are places, and fields of a header.
ghost use Rattle.std.specs.Prelude.{◌≡◌, is_some, IfOk, IfErr, IsErrOf};
ghost use Rattle.room.specs.Refusals.{Rises};
ghost use Rattle.script_words.specs.Numbers.{place_of_word, place_in};
ghost use Rattle.script_words.specs.Readers.{field_of, target_of};
ghost use Rattle.script_words.specs.Commands.{IsFieldRead};
ghost use Rattle.script_words.specs.declared.line_fault.LineFault.TheVariants.{OutOfMemory as no_memory};

use crate::line_fault::LineFault;
use crate::numbers::{is_number_like, natural};
use crate::split::split_once;
use bench_rules::{Field, Text};
use field_map::Place;
use num_order::Kind;
use room::Room;

/// The place that a word is: `@`, perhaps an extension and `.`, a byte, `:`, a size, perhaps `u`.
pub(crate) fn place(word: &str) -> Option<Place>
    ensures { result ≡ place_of_word word.now }
{
    let text = word.as_bytes().strip_prefix(b"@")?;
    match split_once(text, b'.') {
        Some((extension, rest)) => place_from(extension, rest),
        None => place_from(b"0", text),
    }
}

// The place whose byte, size and sign are written so, in the extension of these digits.
fn place_from(extension: &[u8], text: &[u8]) -> Option<Place>
    ensures { result ≡ place_in extension.now text.now }
{
    let extension = natural(extension, 65535)? as u16;
    let (first, size) = split_once(text, b':')?;
    let byte = natural(first, 65535)? as u16;
    let (digits, signed) = match size.strip_suffix(b"u") {
        Some(digits) => (digits, false),
        None => (size, true),
    };
    let size = natural(digits, 255)? as u8;
    Some(Place {
        extension,
        byte,
        kind: Kind { size, signed },
    })
}

/// The text of some characters. Takes memory.
pub(crate) fn text_of(room: &mut Room, characters: &str) -> Result<Text, LineFault>
    ensures ok { IfOk result (λ text. text ≡ characters.now) }
    ensures err { IfErr result (λ fault. fault ≡ no_memory) }
    ensures memory { Rises (IsErrOf result LineFault.OutOfMemory) room.old room.new }
{
    match room.told(String::from_str(room.alloc(), characters)) {
        Ok(text) => Ok(Text::new(text)),
        Err(_) => Err(LineFault::OutOfMemory),
    }
}

/// The field that a word is: a place where it begins with `@`, else a name. Refused: S03, or E11
/// for a name.
pub(crate) fn field(room: &mut Room, word: &str) -> Result<Field, LineFault>
    ensures read { IsFieldRead (field_of word.now) result }
    ensures memory { Rises (IsErrOf result LineFault.OutOfMemory) room.old room.new }
{
    if word.as_bytes().starts_with(b"@") {
        match place(word) {
            Some(place) => Ok(Field::Place(place)),
            None => Err(LineFault::Number),
        }
    } else {
        Ok(Field::Name(text_of(room, word)?))
    }
}

/// The field that a name is bound to: any field, but no name that begins as a number does. Refused:
/// S03, or E11 for a name.
pub(crate) fn target(room: &mut Room, word: &str) -> Result<Field, LineFault>
    ensures read { IsFieldRead (target_of word.now) result }
    ensures memory { Rises (IsErrOf result LineFault.OutOfMemory) room.old room.new }
{
    if is_number_like(word) {
        return Err(LineFault::Number);
    }
    field(room, word)
}

/// Whether the word is a field.
pub(crate) fn is_field(word: &str) -> bool
    ensures { result ≡ is_some (field_of word.now) }
{
    !word.as_bytes().starts_with(b"@") || place(word).is_some()
}
