// How a decimal compares with the size of a float.
ghost use Rattle.std.specs.Prelude.{◌≡◌, ℕ, ◌+◌, ◌*◌, ◌^◌, ◌<◌, ◌≤◌, ◌++◌, length, take, drop, nat_lt};
ghost use Rattle.std.specs.Ordering.{nat_cmp};
ghost use Rattle.std.specs.Str.Parse.{digits_value, AllDigits};
ghost use Rattle.fast_float.specs.Text.{digits_of, tens_up, tens_down};
ghost use Rattle.float_text.specs.Limbs.{limb_weight};
ghost use Rattle.float_text.specs.Sides.{with_rest};

use crate::large_number::LargeNumber;
use fast_float::Numeral;
use std::cmp::Ordering;

// So many places behind the point has a float at most: it is a multiple of 2 ^ -1074.
const PLACES: u128 = 1074;

/// How a decimal compares with digits * 2 ^ twos / 2 ^ 1074, where it is between 2 ^ -1075 and
/// 2 ^ 1024. Only as many of its digits are compared as such a number has.
pub(crate) fn compare_decimal(decimal: &Numeral, digits: u64, twos: u64) -> Ordering
    requires above { 10 ^ tens_down decimal.now
        ≤ digits_of decimal.now * 10 ^ tens_up decimal.now * 2 ^ 1075 }
    requires below { digits_of decimal.now * 10 ^ tens_up decimal.now
        < 2 ^ 1024 * 10 ^ tens_down decimal.now }
    requires digits { digits < 2 ^ 53 }
    requires twos { twos ≤ 2045 }
    ensures { result ≡ nat_cmp (digits_of decimal.now * 10 ^ tens_up decimal.now * 2 ^ 1074)
        (digits * 2 ^ twos * 10 ^ tens_down decimal.now) }
{
    let (whole, fraction) = (decimal.whole(), decimal.fraction());
    let count = whole.len() as u128 + fraction.len() as u128;
    let (up, down) = tens(decimal);
    let up = up + PLACES;
    let kept = count.saturating_sub(down.saturating_sub(up)) as usize;
    let mut left = digits_up_to(whole, fraction, kept);
    left.multiply_by_tens(up.saturating_sub(down) as u64);
    let mut right = LargeNumber::new(digits);
    right.multiply_by_twos(twos);
    right.multiply_by_fives(1074);
    with_rest(left.compare(&right), has_more(whole, fraction, kept))
}

/// Whether a decimal is above 0.
pub(crate) fn is_above_zero(decimal: &Numeral) -> bool
    ensures { result ≡ nat_lt 0 (digits_of decimal.now) }
{
    has_more(decimal.whole(), decimal.fraction(), 0)
}

// How a number stands to another one, if the first has perhaps a rest below 1.
fn with_rest(order: Ordering, rest: bool) -> Ordering
    ensures { result ≡ with_rest order rest }
{
    match order {
        Ordering::Less => Ordering::Less,
        Ordering::Equal => {
            if rest {
                Ordering::Greater
            } else {
                Ordering::Equal
            }
        }
        Ordering::Greater => Ordering::Greater,
    }
}

// The powers of ten that the digits of a decimal are multiplied and divided by.
fn tens(decimal: &Numeral) -> (u128, u128)
    requires { digits_value 10 decimal.now.exponent < 2 ^ 65 }
    ensures up { result.0 ≡ tens_up decimal.now }
    ensures down { result.1 ≡ tens_down decimal.now }
    ensures small { (result.0 < 2 ^ 65) × (result.1 < 2 ^ 66) }
{
    let places = decimal.fraction().len() as u128;
    let power = exponent_of(decimal.exponent());
    if decimal.is_exponent_negative() {
        (0, places + power)
    } else {
        (power, places)
    }
}

// The value of the digits of an exponent.
fn exponent_of(digits: &[u8]) -> u128
    requires digits { AllDigits 10 digits.now }
    requires room { digits_value 10 digits.now < 2 ^ 65 }
    ensures { result ≡ digits_value 10 digits.now }
{
    let mut value = 0;
    for at in 0..digits.len() {
        value = value * 10 + (digits[at] - b'0') as u128;
    }
    value
}

// The number of the first digits.
fn digits_up_to(whole: &[u8], fraction: &[u8], kept: usize) -> LargeNumber
    requires digits { AllDigits 10 whole.now × AllDigits 10 fraction.now }
    requires within { kept ≤ length whole.now + length fraction.now }
    requires room { digits_value 10 (take kept (whole.now ++ fraction.now)) < limb_weight 72 }
    ensures { result ≡ digits_value 10 (take kept (whole.now ++ fraction.now)) }
{
    let mut number = LargeNumber::new(0);
    if kept <= whole.len() {
        number.push_digits(&whole[..kept]);
    } else {
        number.push_digits(whole);
        number.push_digits(&fraction[..kept - whole.len()]);
    }
    number
}

// Whether a digit behind the first ones is not 0.
fn has_more(whole: &[u8], fraction: &[u8], kept: usize) -> bool
    requires digits { AllDigits 10 whole.now × AllDigits 10 fraction.now }
    requires within { kept ≤ length whole.now + length fraction.now }
    ensures { result ≡ nat_lt 0 (digits_value 10 (drop kept (whole.now ++ fraction.now))) }
{
    if kept <= whole.len() {
        has_nonzero(&whole[kept..]) || has_nonzero(fraction)
    } else {
        has_nonzero(&fraction[kept - whole.len()..])
    }
}

fn has_nonzero(digits: &[u8]) -> bool
    requires { AllDigits 10 digits.now }
    ensures { result ≡ nat_lt 0 (digits_value 10 digits.now) }
{
    for at in 0..digits.len() {
        if digits[at] != b'0' {
            return true;
        }
    }
    false
}
