// The IBM value that is nearest to a decimal, rounded once.
ghost use Rattle.std.specs.Prelude.{◌≡◌, ◌<◌, ◌≤◌, ◌*◌, ◌^◌, ◌/◌, ◌%◌};
ghost use Rattle.std.specs.Ordering.{nat_cmp};
ghost use Rattle.fast_float.specs.Text.{digits_of, tens_up, tens_down};
ghost use Rattle.float_codes.specs.Nearest.{ibm_nearest, ibm_pack, ibm_at};
ghost use Rattle.float_text.specs.Sides.{rounded_to};

use crate::middle::compare_with_middle;
use fast_float::Numeral;
use std::cmp::Ordering;

/// The pattern of the IBM value that is nearest to a decimal, at a tie the even one; none past the
/// greatest. The decimal's binary64 tells where it lies between two IBM values, unless that is just
/// the middle of the two: then the digits of the decimal do.
pub(crate) fn nearest_pattern(negative: bool, decimal: &Numeral) -> Option<u32>
    ensures { result ≡ ibm_nearest negative (digits_of decimal.now * 10 ^ tens_up decimal.now)
        (10 ^ tens_down decimal.now) }
{
    let near: f64 = decimal.to_float(false);
    let bits = std::num::f64_to_bits_with_nan(near);
    let exponent = bits / 0x10_0000_0000_0000;
    // below half of the smallest value
    if exponent < 741 {
        return packed(negative, 0, 0);
    }
    // far past the greatest value
    if 1279 <= exponent {
        return None;
    }
    let digits = bits % 0x10_0000_0000_0000 + 0x10_0000_0000_0000;
    let dropped = if exponent < 763 {
        0
    } else {
        (exponent - 763) / 4
    };
    let (kept, side) = place(digits, 795 + 4 * dropped - exponent);
    let order = match side {
        Ordering::Less => Ordering::Less,
        Ordering::Equal => compare_with_middle(decimal, 2 * kept + 1, 4 * dropped),
        Ordering::Greater => Ordering::Greater,
    };
    packed(negative, dropped, rounded(kept, order))
}

// The digits over a power of two: the whole part, and how what is left stands to a half.
fn place(digits: u64, by: u64) -> (u64, Ordering)
    requires digits { digits < 2 ^ 53 }
    requires by { (29 ≤ by) × (by ≤ 54) }
    ensures whole { result.0 ≡ digits / 2 ^ by }
    ensures side { result.1 ≡ nat_cmp (digits % 2 ^ by * 2) (2 ^ by) }
    ensures small { result.0 < 2 ^ 24 }
{
    let unit = 1 << by;
    (digits / unit, (digits % unit * 2).cmp(&unit))
}

// A number, or the next one, by how what follows it stands to a half.
fn rounded(kept: u64, order: Ordering) -> u64
    requires { kept < 2 ^ 24 }
    ensures value { result ≡ rounded_to kept order }
    ensures small { result ≤ 2 ^ 24 }
{
    match order {
        Ordering::Less => kept,
        Ordering::Equal => kept + kept % 2,
        Ordering::Greater => kept + 1,
    }
}

// The pattern of its parts. A fraction of 1 has one hexadecimal digit less.
fn packed(negative: bool, exponent: u64, fraction: u64) -> Option<u32>
    requires exponent { exponent < 400 }
    requires fraction { fraction ≤ 2 ^ 24 }
    ensures { result ≡ ibm_pack negative exponent fraction }
{
    if fraction == 0x100_0000 {
        at(negative, exponent + 1, 0x10_0000)
    } else {
        at(negative, exponent, fraction)
    }
}

fn at(negative: bool, exponent: u64, fraction: u64) -> Option<u32>
    requires fraction { fraction < 2 ^ 24 }
    ensures { result ≡ ibm_at negative exponent fraction }
{
    if 128 <= exponent {
        return None;
    }
    let sign = if negative { 0x8000_0000 } else { 0 };
    Some(sign + (exponent as u32) * 0x100_0000 + fraction as u32)
}
