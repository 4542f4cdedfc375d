// A float as an integer.
ghost use Rattle.std.specs.Prelude.{◌≡◌, ◌<◌, ◌≤◌, ◌+◌, ◌*◌, ◌^◌, ◌/◌, ◌%◌, nat_le, true, from_bits};
ghost use Rattle.std.specs.Float.{NotNan, binary64, float_is_finite};
ghost use Rattle.float_sum.specs.Sums.{units_of, is_negative};

// A finite float as its sign and digits * 2 ^ shift units.
#[derive(Clone, Copy)]
pub(crate) struct Parts {
    pub(crate) negative: bool,
    pub(crate) digits: u64,
    pub(crate) shift: u64,
}

#[inline(always)]
pub(crate) fn parts_of(value: f64) -> Parts
    requires { float_is_finite value ≡ true }
    ensures negative { result.negative ≡ is_negative value }
    ensures size { result.digits * 2 ^ result.shift ≡ units_of value }
    ensures digits { result.digits < 2 ^ 53 }
    ensures shift { result.shift ≤ 2045 }
{
    let bits = bits_of(value);
    let exponent = bits / 0x10_0000_0000_0000 % 2048;
    let negative = 0x8000_0000_0000_0000 <= bits;
    let fraction = bits % 0x10_0000_0000_0000;
    if exponent == 0 {
        Parts {
            negative,
            digits: fraction,
            shift: 0,
        }
    } else {
        Parts {
            negative,
            digits: fraction + 0x10_0000_0000_0000,
            shift: exponent - 1,
        }
    }
}

// The bits, which tell the float.
#[tactic(auto, using(float_codes::proofs::NearestLemmas::bits_back))]
#[inline(always)]
fn bits_of(value: f64) -> u64
    requires { NotNan value }
    ensures { from_bits binary64 result ≡ value }
{
    value.to_bits()
}
