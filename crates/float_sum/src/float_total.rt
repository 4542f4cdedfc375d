// The sum of floats of which some are infinite or no number.
ghost use Rattle.std.specs.Prelude.{◌≡◌, ◌<◌, ◌^◌, [], ◌∷◌, ◌++◌, length, true, false};
ghost use Rattle.std.specs.Float.{float_is_finite};
ghost use Rattle.float_sum.specs.Sums.{total_of};

use crate::added::Added;
use crate::exact_sum::ExactSum;
use std::marker::Model;

/// The sum of floats, whatever they are: the exact sum of the finite ones, rounded once, or an
/// infinity that stands among them. What is no number is passed over, and not counted. A clause
/// sees it as the list of the floats that were added. It lies in about 2200 bytes of its own, and
/// no call takes memory.
#[derive(Drop)]
pub struct FloatTotal {
    finite: ExactSum,
    infinite: bool,
    minus_infinite: bool,
    added: Added,
}

impl Model for FloatTotal {
    ghost use Rattle.std.specs.Prelude.{List};
    ghost use Rattle.std.specs.Float.{Float};

    ghost Value = { List Float };

    ghost use Rattle.float_sum.specs.HoldsTotal.{HoldsTotal};

    ghost view = { λ s. s.added.values };

    ghost invariant = { HoldsTotal };
}

impl FloatTotal {
    /// The sum of none.
    pub fn new() -> FloatTotal
        ensures { result ≡ [] }
    {
        FloatTotal {
            finite: ExactSum::new(),
            infinite: false,
            minus_infinite: false,
            added: Added::new(),
        }
    }

    /// One float more.
    #[inline(always)]
    pub fn add(&mut self, value: f64)
        requires { length self.old < 2 ^ 40 }
        ensures { self.new ≡ self.old ++ value ∷ [] }
    {
        if value.is_finite() {
            self.add_finite(value);
        } else {
            self.add_other(value);
        }
    }

    #[inline(always)]
    fn add_finite(&mut self, value: f64)
        requires finite { float_is_finite value ≡ true }
        requires few { length self.old < 2 ^ 40 }
        ensures { self.new ≡ self.old ++ value ∷ [] }
    {
        self.finite.add(value);
        self.added.note(&[value]);
    }

    #[cold]
    fn add_other(&mut self, value: f64)
        requires { float_is_finite value ≡ false }
        ensures { self.new ≡ self.old ++ value ∷ [] }
    {
        self.infinite = self.infinite | (value == f64::INFINITY);
        self.minus_infinite = self.minus_infinite | (value == f64::NEG_INFINITY);
        self.added.note(&[value]);
    }

    /// The sum, rounded to the nearest binary64, at a tie to the even one. It is an infinity where
    /// one stands among the floats or the sum is past the greatest, no number where both
    /// infinities stand, and +0 where it is zero.
    pub fn sum(&self) -> f64
        requires { length self.now < 2 ^ 40 }
        ensures { result ≡ total_of self.now }
    {
        match (self.infinite, self.minus_infinite) {
            (false, false) => self.finite.nearest(),
            (true, false) => f64::INFINITY,
            (false, true) => f64::NEG_INFINITY,
            (true, true) => f64::NAN,
        }
    }
}
