// The sum of floats, not rounded.
ghost use Rattle.std.specs.Prelude.{◌≡◌, ◌<◌, ◌^◌, [], ◌∷◌, ◌++◌, length, true, false};
ghost use Rattle.std.specs.Float.{binary64, float_is_finite};
ghost use Rattle.std.specs.Float.Ieee.{sum};
ghost use Rattle.float_sum.specs.Worth.{worth};
ghost use Rattle.float_sum.specs.Sums.{AreDigits, nearest_sum};

use crate::added::Added;
use crate::digits::{add, carry_all, leading_of, subtract};
use crate::parts::parts_of;
use crate::rounding::rounded;
use std::marker::Model;

const WORDS: usize = 68;

/// The exact sum of finite floats. A clause sees it as the list of those that were added. It lies
/// in 2176 bytes of its own, and no call takes memory.
#[derive(Drop)]
pub struct ExactSum {
    plus: [u128; WORDS],
    minus: [u128; WORDS],
    added: Added,
}

impl Model for ExactSum {
    ghost use Rattle.std.specs.Prelude.{List};
    ghost use Rattle.std.specs.Float.{Float};

    ghost Value = { List Float };

    ghost use Rattle.float_sum.specs.HoldsSum.{HoldsSum};

    ghost view = { λ s. s.added.values };

    ghost invariant = { HoldsSum };
}

impl ExactSum {
    /// The sum of none.
    pub fn new() -> ExactSum
        ensures { result ≡ [] }
    {
        ExactSum {
            plus: [0; WORDS],
            minus: [0; WORDS],
            added: Added::new(),
        }
    }

    /// One float more. Nothing is rounded.
    #[inline(always)]
    pub fn add(&mut self, value: f64)
        requires finite { float_is_finite value ≡ true }
        requires few { length self.old < 2 ^ 40 }
        ensures { self.new ≡ self.old ++ value ∷ [] }
    {
        let parts = parts_of(value);
        if parts.negative {
            add(&mut self.minus, parts.digits, parts.shift);
        } else {
            add(&mut self.plus, parts.digits, parts.shift);
        }
        self.added.note(&[value]);
    }

    /// The binary64 nearest to the sum, at a tie the even one; past the greatest an infinity, and
    /// at zero +0.
    pub fn nearest(&self) -> f64
        requires { length self.now < 2 ^ 40 }
        ensures { result ≡ nearest_sum self.now }
    {
        let mut plus = self.plus;
        let mut minus = self.minus;
        carry_all(&mut plus);
        carry_all(&mut minus);
        difference(&plus, &minus)
    }
}

// A number less another, rounded, in units of 2 ^ -1074.
fn difference(plus: &[u128], minus: &[u128]) -> f64
    requires plus { length plus.now ≡ 68 }
    requires minus { length minus.now ≡ 68 }
    requires plus_digits { AreDigits plus.now }
    requires minus_digits { AreDigits minus.now }
    ensures { result ≡ sum binary64 false (worth plus.now) true (worth minus.now) (2 ^ 1074) }
{
    let mut out: [u128; WORDS] = [0; WORDS];
    if subtract(plus, minus, &mut out) {
        subtract(minus, plus, &mut out);
        return rounded(true, leading_of(&out));
    }
    rounded(false, leading_of(&out))
}
