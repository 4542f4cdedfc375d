ghost use Rattle.std.specs.Prelude.{◌≡◌, ◌<◌, ◌≤◌, ◌+◌, ◌^◌, ◌*ℤ◌, pos, unsigned_abs};
ghost use Rattle.std.specs.Int.{IsGcd};
ghost use Rattle.key_counts.specs.FractionLaws.{IsGcd-prop, with_sign};
ghost use Rattle.key_counts.specs.Divisors.{first_divisor_of};

use std::cmp::Ordering;

/// A fraction in lowest terms, equal, ordered and hashed by its value.
#[derive(Debug, Clone, Copy, PartialEq, Eq, Hash)]
pub struct Ratio {
    /// The numerator.
    pub num: i64,
    /// The denominator.
    pub den: u32,
    pub ghost positive: { 0 < den },
    pub ghost lowest: { IsGcd (unsigned_abs num) den 1 } by { IsGcd-prop (unsigned_abs num) den 1 },
}

impl Ord for Ratio {
    ghost use Rattle.key_counts.specs.RatioOrder.{ratio_cmp, ratio_total, ratio_ties};
    ghost use Rattle.std.specs.Prelude.{refl};

    ghost cmp = { ratio_cmp };

    ghost total = { ratio_total };

    ghost matches_partial_cmp = { λ x y. refl };

    ghost matches_eq = { ratio_ties };

    fn cmp(&self, other: &Ratio) -> Ordering {
        let left = i128::from(self.num) * i128::from(other.den);
        let right = i128::from(other.num) * i128::from(self.den);
        left.cmp(&right)
    }
}

impl PartialOrd for Ratio {
    ghost use Rattle.key_counts.specs.RatioOrder.{ratio_cmp, ratio_total, ratio_ties};
    ghost use Rattle.std.specs.Prelude.{refl};
    ghost use Rattle.std.specs.Ordering.{as_partial_cmp};
    ghost use Rattle.std.specs.Cmp.{partial_order_from_agreeing_total as from_agreeing_total};

    ghost partial_cmp = { as_partial_cmp ratio_cmp };

    ghost laws = { from_agreeing_total ratio_cmp ratio_total (λ x y. refl) ratio_ties };

    fn partial_cmp(&self, other: &Ratio) -> Option<Ordering> {
        Some(self.cmp(other))
    }
}

impl Ratio {
    ghost use Rattle.std.specs.Prelude.{◌≡◌, ◌<◌, ◌≤◌, ◌^◌, ◌*ℤ◌, pos, unsigned_abs};
    ghost use Rattle.key_counts.specs.Coordinates.{whole, under_scalar, IsUnderScalar};
    ghost use Rattle.key_counts.specs.Parts.{FitsCoordinate};

    /// A whole number. Takes no memory.
    pub fn whole(value: i32) -> Ratio
        ensures value { result ≡ whole value }
        ensures size { FitsCoordinate result }
    {
        Ratio {
            num: i64::from(value),
            den: 1,
        }
    }

    /// A coordinate under its scalar (trace header, bytes 71-72): a positive scalar multiplies, a
    /// negative one divides, and 0 counts as 1. Takes no memory.
    pub fn scaled(value: i32, scalar: i16) -> Ratio
        ensures value { IsUnderScalar value scalar result }
        ensures exact { result ≡ under_scalar value scalar }
        ensures size { FitsCoordinate result }
    {
        Ratio::under(value, scalar)
    }

    // The coordinate by its value.
    fn under(value: i32, scalar: i16) -> Ratio
        ensures value { IsUnderScalar value scalar result }
        ensures size { FitsCoordinate result }
    {
        if scalar > 0 {
            Ratio::reduced(i64::from(value) * i64::from(scalar), 1)
        } else if scalar == 0 {
            Ratio::reduced(i64::from(value), 1)
        } else {
            Ratio::reduced(i64::from(value), scalar.unsigned_abs() as u32)
        }
    }

    // The fraction `num / den`.
    fn reduced(num: i64, den: u32) -> Ratio
        requires den { 0 < den }
        requires small_den { den ≤ 2 ^ 15 }
        requires small_num { unsigned_abs num < 2 ^ 46 }
        ensures value { result.num *ℤ pos den ≡ num *ℤ pos result.den }
        ensures size { FitsCoordinate result }
    {
        let size = num.unsigned_abs();
        let divisor = greatest_common_divisor(size, den);
        if divisor == 1 {
            return Ratio { num, den };
        }
        let least = size / u64::from(divisor);
        Ratio {
            num: with_sign_of(num, least),
            den: den / divisor,
        }
    }
}

// Nearly all coordinates stand under 1, 10, 100 or 1000: then numbers are divided by constants
// alone.
#[inline]
fn greatest_common_divisor(a: u64, b: u32) -> u32
    requires { 0 < b }
    ensures { IsGcd a b result }
{
    match b {
        1 => 1,
        10 => divisor_with_10((a % 10) as u32),
        100 => divisor_with_100((a % 100) as u32),
        1000 => divisor_with_1000((a % 1000) as u32),
        _ => divisor_by_remainders(a, b),
    }
}

#[inline]
fn divisor_with_10(rest: u32) -> u32
    requires { rest < 10 }
    ensures { IsGcd 10 rest result }
{
    first_divisor(rest, 2, 2, 2) * first_divisor(rest, 5, 5, 5)
}

#[inline]
fn divisor_with_100(rest: u32) -> u32
    requires { rest < 100 }
    ensures { IsGcd 100 rest result }
{
    first_divisor(rest, 4, 4, 2) * first_divisor(rest, 25, 25, 5)
}

#[inline]
fn divisor_with_1000(rest: u32) -> u32
    requires { rest < 1000 }
    ensures { IsGcd 1000 rest result }
{
    first_divisor(rest, 8, 4, 2) * first_divisor(rest, 125, 25, 5)
}

// The first of three numbers above 0 that divides `number`, or 1. Where fewer are asked for, the
// last one stands twice.
#[inline(always)]
fn first_divisor(number: u32, first: u32, second: u32, third: u32) -> u32
    requires first { 0 < first }
    requires second { 0 < second }
    requires third { 0 < third }
    ensures divisor { result ≡ first_divisor_of number first second third }
    ensures small { result ≤ first + second + third }
{
    if number % first == 0 {
        first
    } else if number % second == 0 {
        second
    } else if number % third == 0 {
        third
    } else {
        1
    }
}

// Behind the first division all are numbers of 32 bits, which are divided in half the time.
fn divisor_by_remainders(a: u64, b: u32) -> u32
    requires { 0 < b }
    ensures { IsGcd a b result }
{
    let mut x = b;
    let mut y = (a % u64::from(b)) as u32;
    while y != 0 {
        let rest = x % y;
        x = y;
        y = rest;
    }
    x
}

// The size with the sign of the number.
fn with_sign_of(num: i64, size: u64) -> i64
    requires { size < 2 ^ 63 }
    ensures { result ≡ with_sign num size }
{
    let size = size as i64;
    if num < 0 { -size } else { size }
}
