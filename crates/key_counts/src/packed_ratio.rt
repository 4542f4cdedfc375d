ghost use Rattle.std.specs.Prelude.{◌≡◌, ◌<◌, ◌^◌, ◌/◌, ◌%◌};
ghost use Rattle.key_counts.specs.Parts.{IsLowest, IsLowest-prop, first_flag, second_flag};

use crate::Ratio;
use std::cmp::Ordering;
use std::mem::size_of;

// What the first flag counts in a word.
const FIRST: u64 = 0x8000_0000_0000_0000;

// What the second flag counts.
const SECOND: u64 = 0x4000_0000_0000_0000;

// How many numerators a word has room for.
const NUMERATORS: u64 = 0x8000_0000_0000;

// How many denominators.
const DENOMINATORS: u64 = 0x8000;

// The least numerator, without its sign.
const MIDDLE: i64 = 0x4000_0000_0000;

/// A coordinate under its scalar and two flags in 8 bytes, where a `Ratio` takes 16; equal and
/// ordered by the coordinate's value, whatever the flags are.
#[derive(Clone, Copy)]
pub struct PackedRatio {
    /// From the highest bit on: the first flag, the second, the numerator in 47 bits, counted from
    /// -2^46 on, and the denominator in 15 bits, counted from 1 on.
    pub bits: u64,
    pub ghost lowest: { IsLowest bits } by { IsLowest-prop bits },
}

const _: () = prove!(size_of::<PackedRatio>() == 8);

impl PartialEq for PackedRatio {
    ghost use Rattle.std.specs.Ordering.{eq_by_cmp};
    ghost use Rattle.std.specs.Cmp.{partial_equiv_from_equiv, eq_by_cmp_equiv};
    ghost use Rattle.key_counts.specs.Packed.{packed_cmp, packed_total};

    ghost eq = { eq_by_cmp packed_cmp };

    ghost laws = { partial_equiv_from_equiv (eq_by_cmp_equiv packed_total) };

    fn eq(&self, other: &PackedRatio) -> bool {
        self.cmp(other).is_eq()
    }
}

impl Eq for PackedRatio {
    ghost use Rattle.std.specs.Cmp.{eq_by_cmp_equiv};
    ghost use Rattle.key_counts.specs.Packed.{packed_total};

    ghost laws = { eq_by_cmp_equiv packed_total };
}

impl Ord for PackedRatio {
    ghost use Rattle.key_counts.specs.Packed.{packed_cmp, packed_total};
    ghost use Rattle.std.specs.Prelude.{refl};

    ghost cmp = { packed_cmp };

    ghost total = { packed_total };

    ghost matches_partial_cmp = { λ x y. refl };

    ghost matches_eq = { λ x y. refl };

    fn cmp(&self, other: &PackedRatio) -> Ordering {
        self.across(*other).cmp(&other.across(*self))
    }
}

impl PartialOrd for PackedRatio {
    ghost use Rattle.std.specs.Ordering.{as_partial_cmp};
    ghost use Rattle.std.specs.Cmp.{partial_order_from_total};
    ghost use Rattle.key_counts.specs.Packed.{packed_cmp, packed_total};

    ghost partial_cmp = { as_partial_cmp packed_cmp };

    ghost laws = { partial_order_from_total packed_total };

    fn partial_cmp(&self, other: &PackedRatio) -> Option<Ordering> {
        Some(self.cmp(other))
    }
}

impl PackedRatio {
    ghost use Rattle.std.specs.Prelude.{◌≡◌, ◌*ℤ◌, pos};
    ghost use Rattle.key_counts.specs.Parts.{FitsCoordinate, first_flag, second_flag, numerator_in, denominator_in};
    ghost use Rattle.key_counts.specs.Packed.{ratio_in};

    /// The coordinate and both flags. Takes no memory.
    pub fn of(ratio: Ratio, first: bool, second: bool) -> PackedRatio
        requires { FitsCoordinate ratio }
        ensures ratio { ratio_in result ≡ ratio }
        ensures first { first_flag result.bits ≡ first }
        ensures second { second_flag result.bits ≡ second }
    {
        let numerator = (ratio.num + MIDDLE) as u64;
        let denominator = u64::from(ratio.den - 1);
        PackedRatio {
            bits: word_of(first, second, numerator, denominator),
        }
    }

    /// The coordinate. Takes no memory.
    #[inline]
    pub fn ratio(self) -> Ratio
        ensures { result ≡ ratio_in self }
    {
        let numerator = self.bits / DENOMINATORS % NUMERATORS;
        let denominator = self.bits % DENOMINATORS;
        Ratio {
            num: numerator as i64 - MIDDLE,
            den: denominator as u32 + 1,
        }
    }

    // The numerator times the denominator of the other, which fits 64 bits: so two are compared
    // faster than two of `Ratio`.
    #[inline]
    fn across(self, other: PackedRatio) -> i64
        ensures { result ≡ numerator_in self.bits *ℤ pos (denominator_in other.bits) }
    {
        self.ratio().num * i64::from(other.ratio().den)
    }

    /// The first flag. Takes no memory.
    #[inline]
    pub fn first(self) -> bool
        ensures { result ≡ first_flag self.bits }
    {
        self.bits / FIRST == 1
    }

    /// The second flag. Takes no memory.
    #[inline]
    pub fn second(self) -> bool
        ensures { result ≡ second_flag self.bits }
    {
        self.bits / SECOND % 2 == 1
    }
}

// Two flags and two numbers in one.
fn word_of(first: bool, second: bool, numerator: u64, denominator: u64) -> u64
    requires numerator { numerator < 2 ^ 47 }
    requires denominator { denominator < 2 ^ 15 }
    ensures first { first_flag result ≡ first }
    ensures second { second_flag result ≡ second }
    ensures numerator { result / 2 ^ 15 % 2 ^ 47 ≡ numerator }
    ensures denominator { result % 2 ^ 15 ≡ denominator }
{
    let flags = u64::from(first) * FIRST + u64::from(second) * SECOND;
    flags + numerator * DENOMINATORS + denominator
}
