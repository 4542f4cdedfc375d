ghost use Rattle.std.specs.Prelude.{◌≡◌, ◌≤◌, ◌^◌, ◌*◌, ◌*ℤ◌, ◌-ℤ◌, pos, nat_lt, true, unsigned_abs};
ghost use Rattle.std.specs.Option.{option_map_or};
ghost use Rattle.position_differences.specs.Differences.{is_apart as are_apart, is_zero as is_none, greater_of, is_far as lies_far, is_jump as jumps};

use crate::Difference;
use crate::fractions::times;
use key_counts::Ratio;

// A coordinate that differs by more than one of so many parts of an amount is far.
const FAR_PARTS: u128 = 2;

/// Whether a difference is far from another: one of its coordinates differs by more than half of
/// the greater amount of the other's two.
pub fn is_far(difference: &Difference, other: &Difference) -> bool
    ensures { result ≡ lies_far difference.now other.now }
{
    let greater = greater_coordinate(other);
    is_apart(difference.x, other.x, greater) || is_apart(difference.y, other.y, greater)
}

/// Whether a difference is a jump where another is the usual one: it is far from the usual one and
/// from those in front of it and behind it along its line, those that there are. No difference is a
/// jump where the usual one is 0 in x and in y.
pub fn is_jump(
    usual: &Difference,
    before: &Option<Difference>,
    difference: &Difference,
    behind: &Option<Difference>,
) -> bool
    ensures { result ≡ jumps usual.now before.now difference.now behind.now }
{
    !is_zero(usual)
        && is_far(difference, usual)
        && is_far_from_any(difference, before)
        && is_far_from_any(difference, behind)
}

// Whether a difference is far from the other, where there is one.
fn is_far_from_any(difference: &Difference, other: &Option<Difference>) -> bool
    ensures { result ≡ option_map_or (lies_far difference.now) other.now true }
{
    match other {
        Some(other) => is_far(difference, other),
        None => true,
    }
}

// Whether two positions that differ so are one.
fn is_zero(difference: &Difference) -> bool
    ensures { result ≡ is_none difference.now }
{
    difference.x.num == 0 && difference.y.num == 0
}

// Of the two coordinates the one with the greater amount, x where they have the same.
fn greater_coordinate(difference: &Difference) -> Ratio
    ensures { result ≡ greater_of difference.now }
{
    let x = difference.x;
    let y = difference.y;
    let first = times(x.num, y.den).unsigned_abs();
    let second = times(y.num, x.den).unsigned_abs();
    if first < second { y } else { x }
}

// Whether two coordinates differ by more than half of the amount of a third.
fn is_apart(one: Ratio, other: Ratio, third: Ratio) -> bool
    ensures { result ≡ are_apart one other third }
{
    let distance = distance_over(one, other);
    distance > 0 && is_more(distance, one, other, third)
}

// Whether a distance over the product of two denominators is more than half of the amount of a
// third fraction.
fn is_more(distance: u128, one: Ratio, other: Ratio, third: Ratio) -> bool
    requires { distance ≤ 2 ^ 96 }
    ensures { result ≡ nat_lt (unsigned_abs third.num * (one.den * other.den))
        (FAR_PARTS * distance * third.den) }
{
    let dens = u128::from(one.den) * u128::from(other.den);
    let most = u128::from(third.num.unsigned_abs()) * dens;
    most / u128::from(third.den) < FAR_PARTS * distance
}

// How far two fractions are from one another, over the product of their denominators.
fn distance_over(one: Ratio, other: Ratio) -> u128
    ensures value { result ≡ unsigned_abs
        (one.num *ℤ pos other.den -ℤ other.num *ℤ pos one.den) }
    ensures size { result ≤ 2 ^ 96 }
{
    let here = times(one.num, other.den);
    let there = times(other.num, one.den);
    (here - there).unsigned_abs()
}
