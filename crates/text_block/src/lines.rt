// The lines of a block, and a text as a line.
ghost use Rattle.std.specs.Prelude.{◌≡◌, ◌≤◌, length, nat_lt, chars, OnOk, IfOk, IfErr, IsErr, string_bytes};
ghost use Rattle.room.specs.Refusals.{Rises};
ghost use Rattle.text_block.specs.Characters.{blank as blank_of};
ghost use Rattle.text_block.specs.Lines.{shown_line, text_fault, encoded_line, column_without_byte};

use crate::block::{TEXT_BLOCK_BYTES, code_of};
use crate::characters::byte_of;
use crate::code::Code;
use crate::shown::shown;
use crate::text_fault::TextFault;
use room::{OutOfMemory, Room};

/// Line `q` of the block, from 1 to 40, as it is shown: its 80 bytes as characters of the block's
/// code. Any other byte, a carriage return, a line feed and an ASCII backslash are shown as a
/// backslash and two hexadecimal digits. Takes memory.
pub fn line(room: &mut Room, block: &[u8; TEXT_BLOCK_BYTES], q: u32) -> Result<String, OutOfMemory>
    requires first { 1 ≤ q }
    requires last { q ≤ 40 }
    ensures text { IfOk result (λ text. string_bytes text ≡ shown_line block.now q) }
    ensures memory { Rises (IsErr result) room.old room.new }
{
    let start = 80 * (q as usize - 1);
    shown(room, code_of(block), &block[start..start + 80])
}

/// The text as the 80 bytes of a line, with blanks behind it. T01 comes first: more than 80
/// characters. T02: a character that has no byte in the code, the first one, its column counted in
/// characters from 1. Takes no memory.
pub fn encode_line(code: Code, text: &str) -> Result<[u8; 80], TextFault>
    ensures ok { OnOk result (text_fault code (chars text.now) ≡ None) }
    ensures line { IfOk result (λ line. line ≡ encoded_line code (chars text.now)) }
    ensures fault { IfErr result (λ fault. text_fault code (chars text.now) ≡ Some fault) }
{
    if is_too_long(text) {
        return Err(TextFault::TooLong);
    }
    match encode(code, text) {
        Ok(line) => Ok(line),
        Err(column) => Err(TextFault::NoCode(column)),
    }
}

// Whether the text has more than 80 characters. It reads no more than 81.
fn is_too_long(text: &str) -> bool
    ensures { result ≡ nat_lt 80 (length (chars text.now)) }
{
    let mut count: u8 = 0;
    for _character in text.chars() {
        if count == 80 {
            return true;
        }
        count += 1;
    }
    false
}

// The characters as bytes, with blanks behind, or the column of the first character that has none.
fn encode(code: Code, text: &str) -> Result<[u8; 80], u8>
    requires { length (chars text.now) ≤ 80 }
    ensures ok { OnOk result (column_without_byte code (chars text.now) ≡ None) }
    ensures line { IfOk result (λ line. line ≡ encoded_line code (chars text.now)) }
    ensures column { IfErr result (λ column. column_without_byte code (chars text.now) ≡ Some
        column) }
{
    let mut line = [blank(code); 80];
    let mut count = 0;
    for character in text.chars() {
        let Some(byte) = byte_of(code, character) else {
            return Err(count as u8 + 1);
        };
        line[count] = byte;
        count += 1;
    }
    Ok(line)
}

// The byte of a blank.
fn blank(code: Code) -> u8
    ensures { result ≡ blank_of code }
{
    match code {
        Code::Ebcdic => 0x40,
        Code::Ascii => 0x20,
    }
}
