// The characters of the two codes.
ghost use Rattle.std.specs.Prelude.{◌≡◌, ◌<◌, IfSome};
ghost use Rattle.text_block.specs.Characters.{character_of, byte_of as byte_of_character};
ghost use Rattle.text_block.specs.Tables.{in_table, ascii_or_zero};

use crate::code::Code;

// EBCDIC by code page 037: the character of each byte, in rows of 16, and 0 where this crate gives
// the byte none.
const EBCDIC: [u8; 256] = [
    0, 0, 0, 0, 0, 0, 0, 0, 0, 0, 0, 0, 0, 0, 0, 0, // 0x00
    0, 0, 0, 0, 0, 0, 0, 0, 0, 0, 0, 0, 0, 0, 0, 0, // 0x10
    0, 0, 0, 0, 0, 0, 0, 0, 0, 0, 0, 0, 0, 0, 0, 0, // 0x20
    0, 0, 0, 0, 0, 0, 0, 0, 0, 0, 0, 0, 0, 0, 0, 0, // 0x30
    b' ', 0, 0, 0, 0, 0, 0, 0, 0, 0, 0, b'.', b'<', b'(', b'+', 0, // 0x40
    b'&', 0, 0, 0, 0, 0, 0, 0, 0, 0, 0, b'$', b'*', b')', b';', 0, // 0x50
    b'-', b'/', 0, 0, 0, 0, 0, 0, 0, 0, 0, b',', b'%', b'_', b'>', b'?', // 0x60
    0, 0, 0, 0, 0, 0, 0, 0, 0, 0, b':', b'#', b'@', b'\'', b'=', b'"', // 0x70
    0, b'a', b'b', b'c', b'd', b'e', b'f', b'g', b'h', b'i', 0, 0, 0, 0, 0, 0, // 0x80
    0, b'j', b'k', b'l', b'm', b'n', b'o', b'p', b'q', b'r', 0, 0, 0, 0, 0, 0, // 0x90
    0, 0, b's', b't', b'u', b'v', b'w', b'x', b'y', b'z', 0, 0, 0, 0, 0, 0, // 0xA0
    0, 0, 0, 0, 0, 0, 0, 0, 0, 0, 0, 0, 0, 0, 0, 0, // 0xB0
    0, b'A', b'B', b'C', b'D', b'E', b'F', b'G', b'H', b'I', 0, 0, 0, 0, 0, 0, // 0xC0
    0, b'J', b'K', b'L', b'M', b'N', b'O', b'P', b'Q', b'R', 0, 0, 0, 0, 0, 0, // 0xD0
    0, 0, b'S', b'T', b'U', b'V', b'W', b'X', b'Y', b'Z', 0, 0, 0, 0, 0, 0, // 0xE0
    b'0', b'1', b'2', b'3', b'4', b'5', b'6', b'7', b'8', b'9', 0, 0, 0, 0, 0, 0, // 0xF0
];

// The character of a byte, where it has one.
pub(crate) fn character(code: Code, byte: u8) -> Option<u8>
    ensures character { result ≡ character_of code byte }
    ensures ascii { IfSome result (λ c. c < 128) }
{
    entry(character_or_zero(code, byte))
}

// What a table holds at a place, where 0 stands for nothing.
fn entry(value: u8) -> Option<u8>
    ensures { result ≡ in_table value }
{
    if value == 0 { None } else { Some(value) }
}

// The character of a byte, or 0 where it has none.
#[tactic(auto, using(crate::proofs::CharacterTableLemmas::byte_tables))]
fn character_or_zero(code: Code, byte: u8) -> u8
    ensures character { in_table result ≡ character_of code byte }
    ensures ascii { result < 128 }
{
    match code {
        Code::Ebcdic => EBCDIC[usize::from(byte)],
        Code::Ascii => ascii(byte),
    }
}

// The bytes from blank to tilde but for the backslash are their own characters, and the others have
// none.
fn ascii(byte: u8) -> u8
    ensures { result ≡ ascii_or_zero byte }
{
    if byte < 0x20 || byte > 0x7E || byte == 0x5C {
        0
    } else {
        byte
    }
}

// The byte of a character, where it has one.
#[tactic(auto, using(crate::proofs::CharacterTableLemmas::character_tables))]
pub(crate) fn byte_of(code: Code, character: char) -> Option<u8>
    ensures { result ≡ byte_of_character code character }
{
    let character = u32::from(character);
    if character >= 256 {
        return None;
    }
    let character = character as u8;
    match code {
        Code::Ebcdic => ebcdic_byte(character),
        Code::Ascii => entry(ascii(character)),
    }
}

// The byte of a character in the table: its first place there.
fn ebcdic_byte(character: u8) -> Option<u8>
    ensures { result ≡ byte_of_character Code.Ebcdic character }
{
    if character == 0 {
        return None;
    }
    for byte in 0..EBCDIC.len() {
        if EBCDIC[byte] == character {
            return Some(byte as u8);
        }
    }
    None
}
