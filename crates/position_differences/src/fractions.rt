// Differences of fractions in lowest terms.
ghost use Rattle.std.specs.Prelude.{◌≡◌, ◌<◌, ◌≤◌, ◌^◌, ◌*◌, ◌*ℤ◌, ◌-ℤ◌, pos, unsigned_abs};
ghost use Rattle.std.specs.Int.{IsGcd};
ghost use Rattle.std.specs.Ordering.{int_eq};
ghost use Rattle.key_counts.specs.Parts.{FitsCoordinate};
ghost use Rattle.key_counts.specs.FractionLaws.{with_sign};
ghost use Rattle.position_differences.specs.Differences.{above as above_of};

use key_counts::Ratio;

// Two fractions that came last. A fraction is compared with them by its value before it is reduced
// to lowest terms, which takes many divisions: along a line of a grid that is turned, whose
// coordinates are rounded, two differences alternate. Whatever they are, each answer is the same.
#[derive(Debug, Clone, Copy)]
pub(crate) struct LastFractions {
    pub newer: Ratio,
    pub older: Ratio,
}

// How far the second coordinate lies above the first. Most have one denominator.
pub(crate) fn above(from: Ratio, to: Ratio, last: &mut LastFractions) -> Ratio
    requires from { FitsCoordinate from }
    requires to { FitsCoordinate to }
    ensures { result ≡ above_of from to }
{
    if from.den == to.den {
        above_even(from, to, last)
    } else {
        above_uneven(from, to, last)
    }
}

fn above_even(from: Ratio, to: Ratio, last: &mut LastFractions) -> Ratio
    requires from { FitsCoordinate from }
    requires to { FitsCoordinate to }
    requires even { from.den ≡ to.den }
    ensures { result ≡ above_of from to }
{
    lowest(minus(to.num, from.num), to.den, last)
}

// The difference of the numerators of two coordinates.
fn minus(num: i64, other: i64) -> i64
    requires num { unsigned_abs num ≤ 2 ^ 46 }
    requires other { unsigned_abs other ≤ 2 ^ 46 }
    ensures value { result ≡ num -ℤ other }
    ensures size { unsigned_abs result < 2 ^ 63 }
{
    num - other
}

fn above_uneven(from: Ratio, to: Ratio, last: &mut LastFractions) -> Ratio
    requires from { FitsCoordinate from }
    requires to { FitsCoordinate to }
    ensures { result ≡ above_of from to }
{
    let here = across(to, from);
    let there = across(from, to);
    lowest(here - there, to.den * from.den, last)
}

// The numerator of a coordinate times the denominator of another.
fn across(coordinate: Ratio, other: Ratio) -> i64
    requires coordinate { FitsCoordinate coordinate }
    requires other { FitsCoordinate other }
    ensures value { result ≡ coordinate.num *ℤ pos other.den }
    ensures size { unsigned_abs result ≤ 2 ^ 61 }
{
    coordinate.num * i64::from(other.den)
}

// The fraction `num / den`. Whole numbers are many, and need no division; nor do those that came
// last.
fn lowest(num: i64, den: u32, last: &mut LastFractions) -> Ratio
    requires den { 0 < den }
    requires num { unsigned_abs num < 2 ^ 63 }
    ensures { result.num *ℤ pos den ≡ num *ℤ pos result.den }
{
    if den == 1 {
        return whole(num);
    }
    if is_value(last.newer, num, den) {
        return last.newer;
    }
    if is_value(last.older, num, den) {
        return last.older;
    }
    let fraction = reduced(num, den);
    last.older = last.newer;
    last.newer = fraction;
    fraction
}

// Whether the fraction has the value `num / den`.
fn is_value(fraction: Ratio, num: i64, den: u32) -> bool
    ensures { result ≡ int_eq (fraction.num *ℤ pos den) (num *ℤ pos fraction.den) }
{
    times(fraction.num, den) == times(num, fraction.den)
}

pub(crate) fn times(num: i64, den: u32) -> i128
    ensures value { result ≡ num *ℤ pos den }
    ensures size { unsigned_abs result ≤ 2 ^ 95 }
{
    i128::from(num) * i128::from(den)
}

fn whole(num: i64) -> Ratio
    ensures num { result.num ≡ num }
    ensures den { result.den ≡ 1 }
{
    Ratio { num, den: 1 }
}

fn reduced(num: i64, den: u32) -> Ratio
    requires den { 0 < den }
    requires num { unsigned_abs num < 2 ^ 63 }
    ensures { result.num *ℤ pos den ≡ num *ℤ pos result.den }
{
    let size = num.unsigned_abs();
    let divisor = greatest_common_divisor(size, den);
    let least = size / u64::from(divisor);
    Ratio {
        num: with_sign_of(num, least),
        den: den / divisor,
    }
}

// Behind the first division all are numbers of 32 bits, which are divided in half the time.
fn greatest_common_divisor(a: u64, b: u32) -> u32
    requires { 0 < b }
    ensures { IsGcd a b result }
{
    let mut x = b;
    let mut y = (a % u64::from(b)) as u32;
    while y != 0 {
        let rest = x % y;
        x = y;
        y = rest;
    }
    x
}

// The size with the sign of the number.
fn with_sign_of(num: i64, size: u64) -> i64
    requires { size < 2 ^ 63 }
    ensures { result ≡ with_sign num size }
{
    let size = size as i64;
    if num < 0 { -size } else { size }
}
