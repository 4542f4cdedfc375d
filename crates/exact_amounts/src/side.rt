// On which side of the float that is nearest to its size a number lies.
ghost use Rattle.std.specs.Prelude.{◌≡◌, false};
ghost use Rattle.std.specs.Float.{binary64};
ghost use Rattle.std.specs.Float.Ieee.{round};
ghost use Rattle.fast_float.specs.Text.{nearest};
ghost use Rattle.exact_amounts.specs.Numbers.{decimal as decimal_number, Fraction};
ghost use Rattle.exact_amounts.specs.Places.{compares};

use crate::decimal_order::{compare_decimal, is_above_zero};
use crate::size_parts::size_parts;
use crate::whole_order::compare_whole;
use fast_float::Numeral;
use std::cmp::Ordering;

pub(crate) fn whole_side(size: u128, near: f64) -> Ordering
    requires { near ≡ round binary64 false size 1 }
    ensures { result ≡ compares (Fraction false size 1) near }
{
    if !near.is_finite() {
        return Ordering::Less;
    }
    let (digits, twos) = size_parts(near);
    compare_whole(size, digits, twos)
}

pub(crate) fn decimal_side(decimal: &Numeral, near: f64) -> Ordering
    requires { near ≡ nearest binary64 false decimal.now }
    ensures { result ≡ compares (decimal_number false decimal.now) near }
{
    if !near.is_finite() {
        return Ordering::Less;
    }
    let (digits, twos) = size_parts(near);
    if digits > 0 {
        compare_decimal(decimal, digits, twos)
    } else if is_above_zero(decimal) {
        Ordering::Greater
    } else {
        Ordering::Equal
    }
}
