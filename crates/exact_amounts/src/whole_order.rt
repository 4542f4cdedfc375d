// A whole number among the floats.
ghost use Rattle.std.specs.Prelude.{ℕ, pos, ◌≡◌, ◌<◌, ◌≤◌, ◌*◌, ◌^◌, false};
ghost use Rattle.std.specs.Float.{fin, binary64};
ghost use Rattle.std.specs.Float.Ieee.{round};
ghost use Rattle.std.specs.Float.Ieee.Exact.{HasValue};
ghost use Rattle.std.specs.Ordering.{nat_cmp};

use crate::large_number::LargeNumber;
use float_sum::FloatTotal;
use std::cmp::Ordering;

// A whole number is cut into pieces of 53 binary digits, so that each of them is a float.
const PIECE: u128 = 0x20_0000_0000_0000;

// What a 1 counts in the second piece, and in the third: 2 ^ 53 and 2 ^ 106.
const SECOND: f64 = 9007199254740992.0;

const THIRD: f64 = 81129638414606681695789005144064.0;

// What a 1 counts in the upper word of a whole number: 2 ^ 64.
const WORD: u128 = 0x1_0000_0000_0000_0000;

/// The float nearest to a whole number, at a tie the even one: the exact sum of its pieces of 53
/// digits, rounded once.
pub(crate) fn nearest_whole(size: u128) -> f64
    ensures { result ≡ round binary64 false size 1 }
{
    let mut total = FloatTotal::new();
    total.add(scaled((size % PIECE) as u64, 1.0));
    total.add(scaled((size / PIECE % PIECE) as u64, SECOND));
    total.add(scaled((size / PIECE / PIECE) as u64, THIRD));
    total.sum()
}

// A product with a power of two, which is exact.
fn scaled(digits: u64, unit: f64) -> f64
    requires { digits < 2 ^ 53 }
    ensures { (k : ℕ) → k ≤ 106 → unit ≡ fin false 1 (pos k)
        → HasValue result false (digits * 2 ^ k) 1 }
{
    digits as f64 * unit
}

/// How a whole number compares with digits * 2 ^ twos / 2 ^ 1074.
pub(crate) fn compare_whole(size: u128, digits: u64, twos: u64) -> Ordering
    requires digits { digits < 2 ^ 53 }
    requires twos { twos ≤ 2045 }
    ensures { result ≡ nat_cmp (size * 2 ^ 1074) (digits * 2 ^ twos) }
{
    let mut left = LargeNumber::new((size / WORD) as u64);
    left.multiply_by_twos(64);
    left.multiply_add(1, (size % WORD) as u64);
    left.multiply_by_twos(1074);
    let mut right = LargeNumber::new(digits);
    right.multiply_by_twos(twos);
    left.compare(&right)
}
