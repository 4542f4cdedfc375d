// How many extended textual headers a file has.
ghost use Rattle.std.specs.Prelude.{◌≡◌, ◌<◌, ◌≤◌, ◌*◌, ◌^◌, ℕ, List, length, None, IfSome};
ghost use Rattle.std.specs.Option.{ForSome};
ghost use Rattle.frame_cut.specs.Fronts.{BeginsWith};
ghost use Rattle.frame_cut.specs.Heads.{blocks_for as blocks_in, blocks_to_end as blocks_to_end_in};

use text_block::{TEXT_BLOCK_BYTES, ends_text};

// How many stand at the front of so many bytes that begin with these, if there are so many as the
// text count says; None where that is to be seen behind them.
pub(crate) fn blocks_told(count: i16, rest: &[u8], left: u64) -> Option<Option<u32>>
    requires inside { length rest.now ≤ left }
    requires small { left ≤ 2 ^ 40 }
    ensures told { IfSome result (λ found. (all : List ℕ) → BeginsWith rest.now left all →
        found ≡ blocks_in count all) }
    ensures inside { IfSome result (λ found. ForSome found (λ n. TEXT_BLOCK_BYTES * n ≤ left)) }
    ensures more { result ≡ None → length rest.now < left }
{
    if count == -1 {
        return end_told(rest, left);
    }
    if count < 0 {
        return Some(None);
    }
    let blocks = u32::from(count.unsigned_abs());
    if TEXT_BLOCK_BYTES as u64 * u64::from(blocks) <= left {
        Some(Some(blocks))
    } else {
        Some(None)
    }
}

// How many there are up to the first that ends the text, where some whole block of so many bytes
// that begin with these does; None where that is to be seen behind them.
fn end_told(rest: &[u8], left: u64) -> Option<Option<u32>>
    requires inside { length rest.now ≤ left }
    requires small { left ≤ 2 ^ 40 }
    ensures told { IfSome result (λ found. (all : List ℕ) → BeginsWith rest.now left all →
        found ≡ blocks_to_end_in all) }
    ensures inside { IfSome result (λ found. ForSome found (λ n. TEXT_BLOCK_BYTES * n ≤ left)) }
    ensures more { result ≡ None → length rest.now < left }
{
    match blocks_to_end(rest) {
        Some(blocks) => Some(Some(blocks)),
        None if (rest.len() as u64) < left => None,
        None => Some(None),
    }
}

// How many there are up to the first that ends the text, where some whole block does.
fn blocks_to_end(rest: &[u8]) -> Option<u32>
    requires { length rest.now ≤ 2 ^ 40 }
    ensures blocks { result ≡ blocks_to_end_in rest.now }
    ensures inside { IfSome result (λ n. TEXT_BLOCK_BYTES * n ≤ length rest.now) }
{
    let (blocks, _) = rest.as_chunks::<TEXT_BLOCK_BYTES>();
    for (i, block) in blocks.iter().enumerate() {
        if ends_text(block) {
            return Some(i as u32 + 1);
        }
    }
    None
}
