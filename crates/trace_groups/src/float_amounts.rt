// Amounts of floats, as patterns of binary64 without the sign.
ghost use Rattle.std.specs.Prelude.{◌≡◌, ◌<◌, ◌*◌, ◌+◌, ◌^◌, nat_lt};
ghost use Rattle.trace_record.specs.Parts.{FitsSample};
ghost use Rattle.trace_groups.specs.Loud.{pattern_of_amount as pattern_in, is_finite as is_finite_pattern, power_of as power_in, digits_of as digits_in, units_of};

// The pattern of an infinite amount.
const INFINITE: u64 = 0x7FF0_0000_0000_0000;

// 2 ^ 52: how many fractions a pattern has.
const FRACTIONS: u64 = 0x10_0000_0000_0000;

// The pattern of the amount of a float of this rank.
pub(crate) fn pattern_of_amount(rank: i128) -> u64
    requires { FitsSample rank }
    ensures { result ≡ pattern_in rank }
{
    if rank < 0 {
        (-1 - rank) as u64
    } else {
        rank as u64
    }
}

// Whether the amount is finite.
pub(crate) fn is_finite(pattern: u64) -> bool
    ensures { result ≡ is_finite_pattern pattern }
{
    pattern < INFINITE
}

// The power of 2 that a pattern's digits count, from that of the least amount above 0.
fn power_of(pattern: u64) -> u64
    ensures { result ≡ power_in pattern }
{
    (pattern / FRACTIONS).saturating_sub(1)
}

// The digits of a pattern.
fn digits_of(pattern: u64) -> u64
    ensures value { result ≡ digits_in pattern }
    ensures few { result < 2 ^ 53 }
{
    let first = if pattern / FRACTIONS == 0 {
        0
    } else {
        FRACTIONS
    };
    first + pattern % FRACTIONS
}

// Whether a finite amount is more than 100 times another, exactly.
pub(crate) fn exceeds_100_times(amount: u64, median: u64) -> bool
    ensures { result ≡ nat_lt (100 * units_of median) (units_of amount) }
{
    let power = power_of(amount);
    let less = power_of(median);
    if power < less {
        return false;
    }
    let shift = power - less;
    shift >= 8 || 100 * digits_of(median) < digits_of(amount) << shift
}
