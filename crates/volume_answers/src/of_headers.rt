// What the file's headers say to the faults.
ghost use Rattle.std.specs.Prelude.{◌≡◌, ◌≤◌, count_by};
ghost use Rattle.std.specs.List.{range_with_len};
ghost use Rattle.text_block.specs.Blocks.{code_of as code_of_block};
ghost use Rattle.bench_rules.specs.Letters.{letter_c as letter_c_of};
ghost use Rattle.bench_rules.specs.Reports.{facts_of_headers, is_without_c, lines_without_c as lines_without_c_of};

use fault_live::HeadFacts;
use frame_cut::{BINARY_HEADER_BYTES, Head};
use num_order::{u16_at, u64_at};
use text_block::{Code, TEXT_BLOCK_BYTES, code_of};

/// What the head, the textual header and the binary header of a file say to its faults: the number
/// of traces (bytes 3513-3520) and the interval (3217-3218) as they stand, the revision, and how
/// many lines of the textual header do not begin with `C`. Takes no memory.
pub fn head_facts(
    head: Head,
    text: &[u8; TEXT_BLOCK_BYTES],
    bin: &[u8; BINARY_HEADER_BYTES],
) -> HeadFacts
    ensures { result ≡ facts_of_headers head text.now bin.now }
{
    let order = head.order;
    HeadFacts {
        trace_count: u64_at(order, bin, 3513 - 3201),
        lines: lines_without_c(text),
        interval: u16_at(order, bin, 3217 - 3201),
        major: head.major,
        minor: head.minor,
    }
}

// How many of the 40 lines of a block do not begin with `C` as they are shown.
fn lines_without_c(block: &[u8; TEXT_BLOCK_BYTES]) -> u32
    ensures { result ≡ lines_without_c_of block.now }
{
    first_lines_without_c(block, letter_c(code_of(block)), 40)
}

// How many of the first lines of a block do not, where the byte of the letter is this one.
fn first_lines_without_c(block: &[u8; TEXT_BLOCK_BYTES], letter: u8, lines: usize) -> u32
    requires letter { letter ≡ letter_c_of (code_of_block block.now) }
    requires few { lines ≤ 40 }
    ensures { result ≡ count_by (is_without_c block.now) (range_with_len 1 lines) }
{
    let mut count = 0;
    for before in 0..lines {
        if block[80 * before] != letter {
            count += 1;
        }
    }
    count
}

// The byte of the letter C.
fn letter_c(code: Code) -> u8
    ensures { result ≡ letter_c_of code }
{
    match code {
        Code::Ebcdic => 0xC3,
        Code::Ascii => b'C',
    }
}
