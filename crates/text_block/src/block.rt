// What a whole block tells of itself: its code, and whether it ends the extended textual headers.
ghost use Rattle.std.specs.Prelude.{◌≡◌, nat_eq};
ghost use Rattle.std.specs.List.{starts_with};
ghost use Rattle.text_block.specs.Blocks.{code_of as code_of_block, ends_text as ends_text_of, is_space as is_space_byte, compact_text, end_stanza};
ghost use Rattle.text_block.specs.Tables.{open_parenthesis as open_parenthesis_of};

use crate::characters::character;
use crate::code::Code;

/// How many bytes a text block has: the textual file header, each extended textual file header and
/// each data trailer record.
pub const TEXT_BLOCK_BYTES: usize = 3200;

// The stanza that ends the extended textual headers, without blanks and in small letters.
const END: [u8; 15] = *b"((seg:endtext))";

/// The code of a block, judged from its bytes: the code with more blanks, and with equally many
/// EBCDIC where the first byte is an EBCDIC `C`, else ASCII. Takes no memory.
pub fn code_of(block: &[u8; TEXT_BLOCK_BYTES]) -> Code
    ensures { result ≡ code_of_block block.now }
{
    let mut ebcdic: u16 = 0;
    let mut ascii: u16 = 0;
    for &byte in block {
        if byte == 0x40 {
            ebcdic += 1;
        } else if byte == 0x20 {
            ascii += 1;
        }
    }
    if ascii < ebcdic || (ascii == ebcdic && block[0] == 0xC3) {
        Code::Ebcdic
    } else {
        Code::Ascii
    }
}

/// Whether the block ends the extended textual headers: whether it holds the stanza `((SEG:
/// EndText))`, where capital and small letters are the same, and blanks, carriage returns and line
/// feeds do not count. Takes no memory.
pub fn ends_text(block: &[u8; TEXT_BLOCK_BYTES]) -> bool
    ensures { result ≡ ends_text_of block.now }
{
    let code = code_of(block);
    let parenthesis = open_parenthesis(code);
    for at in 0..block.len() {
        if block[at] == parenthesis && starts_with_end(code, &block[at..]) {
            return true;
        }
    }
    false
}

// The byte of an opening parenthesis.
fn open_parenthesis(code: Code) -> u8
    ensures { result ≡ open_parenthesis_of code }
{
    match code {
        Code::Ebcdic => 0x4D,
        Code::Ascii => 0x28,
    }
}

// Whether the text of the bytes starts with the stanza. It stops at the first character that is
// another.
fn starts_with_end(code: Code, bytes: &[u8]) -> bool
    ensures { result ≡ starts_with nat_eq (compact_text code bytes.now) end_stanza }
{
    let mut matched = 0;
    for &byte in bytes {
        if is_space(code, byte) {
            continue;
        }
        let Some(character) = character(code, byte) else {
            return false;
        };
        if character.to_ascii_lowercase() != END[matched] {
            return false;
        }
        matched += 1;
        if matched == END.len() {
            return true;
        }
    }
    false
}

// A blank, a carriage return or a line feed.
fn is_space(code: Code, byte: u8) -> bool
    ensures { result ≡ is_space_byte code byte }
{
    match code {
        Code::Ebcdic => byte == 0x40 || byte == 0x0D || byte == 0x25,
        Code::Ascii => byte == 0x20 || byte == 0x0D || byte == 0x0A,
    }
}
