// On which side of a middle between two IBM values a decimal lies.
ghost use Rattle.std.specs.Prelude.{◌≡◌, ℕ, ◌+◌, ◌*◌, ◌^◌, ◌<◌, ◌≤◌, ◌++◌, length, take, drop, nat_lt};
ghost use Rattle.std.specs.Ordering.{nat_cmp};
ghost use Rattle.std.specs.Str.Parse.{digits_value, AllDigits};
ghost use Rattle.fast_float.specs.Text.{digits_of, tens_up, tens_down};
ghost use Rattle.float_text.specs.Limbs.{limb_weight};
ghost use Rattle.float_text.specs.Sides.{with_rest};

use crate::large_number::LargeNumber;
use fast_float::Numeral;
use std::cmp::Ordering;

// So many places behind the point has a middle at most: it is a multiple of 2 ^ -281.
const PLACES: u128 = 281;

/// How a decimal stands to the middle odd * 2 ^ twos / 2 ^ 281, where it is between 2 ^ -282 and
/// 2 ^ 256. Only as many digits are compared as the middle has.
pub(crate) fn compare_with_middle(decimal: &Numeral, odd: u64, twos: u64) -> Ordering
    requires above { 10 ^ tens_down decimal.now
        ≤ digits_of decimal.now * 10 ^ tens_up decimal.now * 2 ^ 282 }
    requires below { digits_of decimal.now * 10 ^ tens_up decimal.now
        < 2 ^ 256 * 10 ^ tens_down decimal.now }
    requires odd { odd < 2 ^ 25 }
    requires twos { twos ≤ 512 }
    ensures { result ≡ nat_cmp (digits_of decimal.now * 10 ^ tens_up decimal.now * 2 ^ 281)
        (odd * 2 ^ twos * 10 ^ tens_down decimal.now) }
{
    let (whole, fraction) = (decimal.whole(), decimal.fraction());
    let count = whole.len() as u128 + fraction.len() as u128;
    let (up, down) = tens(decimal);
    let up = up + PLACES;
    let kept = count.saturating_sub(down.saturating_sub(up)) as usize;
    let mut digits = digits_up_to(whole, fraction, kept);
    digits.multiply(10, up.saturating_sub(down) as u64);
    let mut middle = LargeNumber::new(odd);
    middle.multiply(2, twos);
    middle.multiply(5, 281);
    with_rest(digits.compare(&middle), has_more(whole, fraction, kept))
}

// How a number stands to another one, if the first has perhaps a rest below 1.
fn with_rest(order: Ordering, rest: bool) -> Ordering
    ensures { result ≡ with_rest order rest }
{
    match order {
        Ordering::Less => Ordering::Less,
        Ordering::Equal => {
            if rest {
                Ordering::Greater
            } else {
                Ordering::Equal
            }
        }
        Ordering::Greater => Ordering::Greater,
    }
}

// The powers of ten that the digits of a decimal are multiplied and divided by.
fn tens(decimal: &Numeral) -> (u128, u128)
    requires { digits_value 10 decimal.now.exponent < 2 ^ 65 }
    ensures up { result.0 ≡ tens_up decimal.now }
    ensures down { result.1 ≡ tens_down decimal.now }
    ensures small { (result.0 < 2 ^ 65) × (result.1 < 2 ^ 66) }
{
    let places = decimal.fraction().len() as u128;
    let power = exponent_of(decimal.exponent());
    if decimal.is_exponent_negative() {
        (0, places + power)
    } else {
        (power, places)
    }
}

// The value of the digits of an exponent.
fn exponent_of(digits: &[u8]) -> u128
    requires digits { AllDigits 10 digits.now }
    requires room { digits_value 10 digits.now < 2 ^ 65 }
    ensures { result ≡ digits_value 10 digits.now }
{
    let mut value = 0;
    for at in 0..digits.len() {
        value = value * 10 + (digits[at] - b'0') as u128;
    }
    value
}

// The number of the first digits.
fn digits_up_to(whole: &[u8], fraction: &[u8], kept: usize) -> LargeNumber
    requires digits { AllDigits 10 whole.now × AllDigits 10 fraction.now }
    requires within { kept ≤ length whole.now + length fraction.now }
    requires room { digits_value 10 (take kept (whole.now ++ fraction.now)) < limb_weight 19 }
    ensures { result ≡ digits_value 10 (take kept (whole.now ++ fraction.now)) }
{
    let mut number = LargeNumber::new(0);
    if kept <= whole.len() {
        number.push_digits(&whole[..kept]);
    } else {
        number.push_digits(whole);
        number.push_digits(&fraction[..kept - whole.len()]);
    }
    number
}

// Whether a digit behind the first ones is not 0.
fn has_more(whole: &[u8], fraction: &[u8], kept: usize) -> bool
    requires digits { AllDigits 10 whole.now × AllDigits 10 fraction.now }
    requires within { kept ≤ length whole.now + length fraction.now }
    ensures { result ≡ nat_lt 0 (digits_value 10 (drop kept (whole.now ++ fraction.now))) }
{
    if kept <= whole.len() {
        has_nonzero(&whole[kept..]) || has_nonzero(fraction)
    } else {
        has_nonzero(&fraction[kept - whole.len()..])
    }
}

fn has_nonzero(digits: &[u8]) -> bool
    requires { AllDigits 10 digits.now }
    ensures { result ≡ nat_lt 0 (digits_value 10 digits.now) }
{
    for at in 0..digits.len() {
        if digits[at] != b'0' {
            return true;
        }
    }
    false
}
