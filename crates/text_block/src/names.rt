// The names of the stanzas of a block.
ghost use Rattle.std.specs.Prelude.{◌≡◌, ◌≤◌, ◌+◌, not, length, take, drop, map, option_map, IfOk, IfSome, IsErr, IsAscii, string_bytes};
ghost use Rattle.std.specs.List.{prefix_len};
ghost use Rattle.room.specs.Refusals.{Rises};
ghost use Rattle.text_block.specs.Stanzas.{is_parenthesis as is_parenthesis_character, stanza_at, stanzas_in as names_in, stanzas as names_of};

use crate::block::{TEXT_BLOCK_BYTES, code_of};
use crate::shown::shown;
use room::{OutOfMemory, Room};

/// The names of the block's stanzas from left to right, in the text that the block shows: `((`, one
/// or more characters that are no parentheses, and `))`. The search goes on behind a stanza that
/// was found, else one character further. Takes memory.
pub fn stanzas(room: &mut Room, block: &[u8; TEXT_BLOCK_BYTES]) -> Result<Vec<String>, OutOfMemory>
    ensures names { IfOk result (λ names. map string_bytes names.items ≡ names_of block.now) }
    ensures memory { Rises (IsErr result) room.old room.new }
{
    let text = shown(room, code_of(block), block)?;
    stanzas_in(room, text.as_str())
}

// The names of the stanzas in a text.
fn stanzas_in(room: &mut Room, text: &str) -> Result<Vec<String>, OutOfMemory>
    requires { IsAscii text.now }
    ensures names { IfOk result (λ names. map string_bytes names.items ≡ names_in text.now) }
    ensures memory { Rises (IsErr result) room.old room.new }
{
    let mut names = Vec::new(room.alloc());
    let mut at = 0;
    while at < text.len() {
        match name_length(&text.as_bytes()[at..]) {
            Some(length) => {
                let start = at + 2;
                let made = String::from_str(room.alloc(), &text[start..start + length]);
                let name = room.told(made)?;
                room.told_back(names.push(name))?;
                at += length + 4;
            }
            None => at += 1,
        }
    }
    Ok(names)
}

// How long the name of the stanza is that the text begins with, if it begins with one.
fn name_length(text: &[u8]) -> Option<usize>
    ensures name { option_map (λ n. take n (drop 2 text.now)) result ≡ stanza_at text.now }
    ensures within { IfSome result (λ n. n + 4 ≤ length text.now) }
{
    if !text.starts_with(b"((") {
        return None;
    }
    let length = length_to_parenthesis(&text[2..]);
    if length > 0 && text[length + 2..].starts_with(b"))") {
        Some(length)
    } else {
        None
    }
}

// How many characters stand in front of the next parenthesis.
fn length_to_parenthesis(text: &[u8]) -> usize
    ensures length { result ≡ prefix_len (λ c. not (is_parenthesis_character c)) text.now }
    ensures within { result ≤ length text.now }
{
    let mut length = 0;
    for &character in text {
        if character == b'(' || character == b')' {
            break;
        }
        length += 1;
    }
    length
}
