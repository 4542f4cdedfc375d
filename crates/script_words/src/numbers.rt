// Words that are numbers.
ghost use Rattle.std.specs.Prelude.{◌≡◌, ◌≤◌, ◌^◌, neg_ℤ, pos};
ghost use Rattle.script_words.specs.Numbers.{natural_up_to, number_of, sample_number, rank_read as rank_of_reading, position_of, step_of, trace_of, new_place_of, is_to_be_number};

use float_codes::FloatFormat;
use float_text::Reading;

// From here on one more digit goes past 2^127, and below it a digit more fits 128 bits.
const ROOM_FOR_A_DIGIT: u128 = 1 << 124;

/// The value of one or more digits, where it is at most `most`; else `None`.
pub(crate) fn natural(word: &[u8], most: u128) -> Option<u128>
    requires { most ≤ 2 ^ 127 }
    ensures { result ≡ natural_up_to most word.now }
{
    if word.is_empty() {
        return None;
    }
    let mut value = 0u128;
    'digits: for byte in word {
        if !byte.is_ascii_digit() || value >= ROOM_FOR_A_DIGIT {
            return None;
        }
        value = value * 10 + u128::from(*byte - b'0');
    }
    if value <= most { Some(value) } else { None }
}

/// The number that a word is: perhaps `-`, and digits; inside the range of an `i128`.
pub(crate) fn number(word: &str) -> Option<i128>
    ensures { result ≡ number_of word.now }
{
    let word = word.as_bytes();
    match word.strip_prefix(b"-") {
        Some(digits) => Some(negative(natural(digits, 1 << 127)?)),
        None => Some(natural(word, (1 << 127) - 1)? as i128),
    }
}

// What is given for a decimal past the greatest value of a format: no sample has this number.
const PAST_GREATEST: i128 = 1 << 64;

/// The number that a word gives a sample: a number, or of floats, whose format comes first, the
/// rank of the value that is nearest to a decimal.
pub(crate) fn sample(floats: Option<FloatFormat>, word: &str) -> Option<i128>
    ensures { result ≡ sample_number floats word.now }
{
    match floats {
        None => number(word),
        Some(format) => Some(rank_read(float_text::parse(format, word.as_bytes())?)),
    }
}

fn rank_read(reading: Reading) -> i128
    ensures { result ≡ rank_of_reading reading }
{
    match reading {
        Reading::Value(value) => i128::from(float_codes::rank_of(value)),
        Reading::PastGreatest { .. } => PAST_GREATEST,
    }
}

/// The position that a word is: a number from 0 to 4294967295.
pub(crate) fn position(word: &str) -> Option<u32>
    ensures { result ≡ position_of word.now }
{
    let value = number(word)?;
    if value < 0 || value > 4294967295 {
        return None;
    }
    Some(value as u32)
}

/// The step that a word is: a position above 0.
pub(crate) fn step(word: &str) -> Option<u32>
    ensures { result ≡ step_of word.now }
{
    let step = position(word)?;
    if step == 0 { None } else { Some(step) }
}

/// The trace that a word is: a position, or for `last` the number of traces.
pub(crate) fn trace(traces: u32, word: &str) -> Option<u32>
    ensures { result ≡ trace_of traces word.now }
{
    if word == "last" {
        Some(traces)
    } else {
        position(word)
    }
}

/// Where a trace is to be put in: in front of a trace, or at `end`, behind the last.
pub(crate) fn new_place(traces: u32, word: &str) -> Option<u32>
    ensures { result ≡ new_place_of traces word.now }
{
    if word == "end" {
        Some(traces.saturating_add(1))
    } else {
        trace(traces, word)
    }
}

/// Whether the word is to be a number: it begins with a digit, `-` or `+`.
pub(crate) fn is_number_like(word: &str) -> bool
    ensures { result ≡ is_to_be_number word.now }
{
    match word.as_bytes().first() {
        Some(byte) => byte.is_ascii_digit() || *byte == b'-' || *byte == b'+',
        None => false,
    }
}

fn negative(magnitude: u128) -> i128
    requires { magnitude ≤ 2 ^ 127 }
    ensures { result ≡ neg_ℤ (pos magnitude) }
{
    if magnitude == 1 << 127 {
        i128::MIN
    } else {
        -(magnitude as i128)
    }
}
