// The place of a number among the values of binary64.
ghost use Rattle.std.specs.Prelude.{ℕ, ◌≡◌, ◌<◌, false};
ghost use Rattle.std.specs.Float.{binary64};
ghost use Rattle.std.specs.Float.Ieee.{round};
ghost use Rattle.std.specs.Option.{option_map};
ghost use Rattle.exact_amounts.specs.Numbers.{decimal as decimal_number, Fraction, Infinity, whole, number_of};
ghost use Rattle.exact_amounts.specs.Places.{place_of, compares, level as level_of};

use crate::side::{decimal_side, whole_side};
use crate::whole_order::nearest_whole;
use fast_float::Numeral;
use std::cmp::Ordering;

/// A number as a place among the values of binary64: the rank of the nearest value, and on which
/// side of that value the number lies.
#[derive(Clone, Copy, Debug, PartialEq, Eq)]
pub struct Amount {
    pub rank: i64,
    pub side: Ordering,
}

impl Amount {
    ghost use Rattle.std.specs.Prelude.{◌≡◌, Some, IfSome};
    ghost use Rattle.std.specs.Option.{option_map};
    ghost use Rattle.exact_amounts.specs.Numbers.{Number, whole, number_of};
    ghost use Rattle.exact_amounts.specs.Places.{place_of, stands, IsPlaceOf};

    /// The place of a whole number. Takes no memory.
    pub fn of_whole(number: i128) -> Amount
        ensures value { result ≡ place_of (whole number) }
        ensures exact { IsPlaceOf result (whole number) }
    {
        whole_place(number)
    }

    /// The place of the number that a word says, as `float_text` reads it: a decimal of any length,
    /// with a point and an exponent or without, `inf` or `-inf`. None where it is no such word:
    /// `nan`, `+1`, `1e` and a lone point are none. Takes no memory.
    pub fn of_decimal(word: &[u8]) -> Option<Amount>
        ensures value { result ≡ option_map place_of (number_of word.now) }
        ensures exact { (n : Number) → number_of word.now ≡ Some n
            → IfSome result (λ a. IsPlaceOf a n) }
    {
        word_place(word)
    }

    /// How the number compares with the value of a rank, exactly: 0 and -0 are the same number, and
    /// what is no number stands above all. Takes no memory.
    pub fn compare(self, rank: i64) -> Ordering
        ensures { result ≡ stands self rank }
    {
        match level(self.rank).cmp(&level(rank)) {
            Ordering::Less => Ordering::Less,
            Ordering::Equal => self.side,
            Ordering::Greater => Ordering::Greater,
        }
    }
}

fn whole_place(number: i128) -> Amount
    ensures { result ≡ place_of (whole number) }
{
    let size = number.unsigned_abs();
    let near = nearest_whole(size);
    placed(number < 0, near, whole_side(size, near))
}

fn word_place(word: &[u8]) -> Option<Amount>
    ensures { result ≡ option_map place_of (number_of word.now) }
{
    let negative = word.first() == Some(&b'-');
    let size = if negative { &word[1..] } else { word };
    if size == b"inf".as_slice() {
        return Some(infinity(negative));
    }
    let numeral = Numeral::scan(size);
    if numeral.has_digits() && numeral.len() == size.len() {
        return Some(decimal_place(negative, &numeral));
    }
    None
}

// The place of a decimal.
fn decimal_place(negative: bool, decimal: &Numeral) -> Amount
    ensures { result ≡ place_of (decimal_number negative decimal.now) }
{
    let near: f64 = decimal.to_float(false);
    placed(negative, near, decimal_side(decimal, near))
}

// The place of an infinity.
fn infinity(negative: bool) -> Amount
    ensures { result ≡ place_of (Infinity negative) }
{
    let value = if negative {
        f64::NEG_INFINITY
    } else {
        f64::INFINITY
    };
    at(float_codes::rank_of(value), Ordering::Equal)
}

// A place with a sign, from that of the size.
fn placed(negative: bool, near: f64, side: Ordering) -> Amount
    ensures { (a c : ℕ) → 0 < c → near ≡ round binary64 false a c
        → side ≡ compares (Fraction false a c) near
        → result ≡ place_of (Fraction negative a c) }
{
    let rank = float_codes::rank_of(near);
    if negative {
        at(-1 - rank, side.reverse())
    } else {
        at(rank, side)
    }
}

fn at(rank: i64, side: Ordering) -> Amount
    ensures { result ≡ record { rank = rank; side = side } }
{
    Amount { rank, side }
}

// The rank, where that of -0 is taken as that of 0.
fn level(rank: i64) -> i64
    ensures { result ≡ level_of rank }
{
    if rank < 0 { rank + 1 } else { rank }
}
