// Bytes as they are shown.
ghost use Rattle.std.specs.Prelude.{◌≡◌, ◌≤◌, ◌<◌, ◌++◌, length, OnOk, IfOk, IsErr, IsAscii, string_bytes};
ghost use Rattle.std.specs.Char.{digit_char};
ghost use Rattle.room.specs.Refusals.{Rises};
ghost use Rattle.text_block.specs.Characters.{shown_bytes, shown_byte};

use crate::block::TEXT_BLOCK_BYTES;
use crate::characters::character;
use crate::code::Code;
use room::{OutOfMemory, Room};

// The bytes as they are shown: each as its character, or else as a backslash and two hexadecimal
// digits.
pub(crate) fn shown(room: &mut Room, code: Code, bytes: &[u8]) -> Result<String, OutOfMemory>
    requires { length bytes.now ≤ TEXT_BLOCK_BYTES }
    ensures text { IfOk result (λ text. string_bytes text ≡ shown_bytes code bytes.now) }
    ensures ascii { IfOk result (λ text. IsAscii (string_bytes text)) }
    ensures memory { Rises (IsErr result) room.old room.new }
{
    let made = String::with_capacity(room.alloc(), 3 * bytes.len());
    let mut text = room.told(made)?;
    for &byte in bytes {
        push_shown(room, &mut text, code, byte)?;
    }
    Ok(text)
}

// One byte more.
fn push_shown(room: &mut Room, text: &mut String, code: Code, byte: u8) -> Result<(), OutOfMemory>
    ensures text { OnOk result (string_bytes text.new ≡ string_bytes text.old ++ shown_byte code
        byte) }
    ensures ascii { OnOk result (IsAscii (shown_byte code byte)) }
    ensures memory { Rises (IsErr result) room.old room.new }
{
    match character(code, byte) {
        Some(character) => room.told(text.push(char::from(character)))?,
        None => {
            room.told(text.push('\\'))?;
            room.told(text.push(digit(byte / 16)))?;
            room.told(text.push(digit(byte % 16)))?;
        }
    }
    Ok(())
}

// The character of a hexadecimal digit.
fn digit(value: u8) -> char
    requires { value < 16 }
    ensures value { result ≡ digit_char value }
    ensures ascii { result < 128 }
{
    if value < 10 {
        char::from(b'0' + value)
    } else {
        char::from(b'a' + (value - 10))
    }
}
