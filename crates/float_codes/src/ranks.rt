// Floats as whole numbers in the order of their values.
ghost use Rattle.std.specs.Prelude.{◌≡◌};
ghost use Rattle.float_codes.specs.Ranks.{rank, pattern_at, rank_of as rank_of_float, value_at as value_at_rank, is_number_rank};

// The pattern of -0.
const SIGN: u64 = 0x8000_0000_0000_0000;

/// The rank of what is no number. It stands above the rank of each number.
pub const NO_NUMBER: i64 = 0x7FF8_0000_0000_0000;

// The rank of an infinity, of which that of the negative one is 1 less than minus this.
const INFINITE: i64 = 0x7FF0_0000_0000_0000;

/// The rank of a float: its pattern as a number in the order of the values, where -0 stands just
/// below 0. What is no number has the rank `NO_NUMBER`, whatever its pattern. Takes no memory.
#[inline(always)]
pub fn rank_of(value: f64) -> i64
    ensures { result ≡ rank_of_float value }
{
    rank_of_pattern(std::num::f64_to_bits_with_nan(value))
}

#[inline(always)]
fn rank_of_pattern(pattern: u64) -> i64
    ensures { result ≡ rank pattern }
{
    if pattern < SIGN {
        pattern as i64
    } else {
        -1 - (pattern - SIGN) as i64
    }
}

/// The float of a rank. Takes no memory.
pub fn value_at(rank: i64) -> f64
    ensures { result ≡ value_at_rank rank }
{
    std::num::f64_from_bits_with_nan(pattern_of_rank(rank))
}

fn pattern_of_rank(rank: i64) -> u64
    ensures { result ≡ pattern_at rank }
{
    if rank < 0 {
        SIGN + (-1 - rank) as u64
    } else {
        rank as u64
    }
}

/// Whether the rank is that of a number, finite or infinite. Takes no memory.
#[inline(always)]
pub fn is_number(rank: i64) -> bool
    ensures { result ≡ is_number_rank rank }
{
    -INFINITE - 1 <= rank && rank <= INFINITE
}
