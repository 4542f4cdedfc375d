// The size of a float as an integer.
ghost use Rattle.std.specs.Prelude.{◌≡◌, ◌<◌, ◌≤◌, ◌*◌, ◌^◌, true, from_bits};
ghost use Rattle.std.specs.Float.{NotNan, binary64, float_is_finite};
ghost use Rattle.float_sum.specs.Sums.{units_of};

/// Digits and a number of twos: the size of a finite float is digits * 2 ^ twos / 2 ^ 1074.
pub(crate) fn size_parts(value: f64) -> (u64, u64)
    requires { float_is_finite value ≡ true }
    ensures size { result.0 * 2 ^ result.1 ≡ units_of value }
    ensures digits { result.0 < 2 ^ 53 }
    ensures twos { result.1 ≤ 2045 }
{
    let bits = bits_of(value);
    let exponent = bits / 0x10_0000_0000_0000 % 2048;
    let fraction = bits % 0x10_0000_0000_0000;
    if exponent == 0 {
        (fraction, 0)
    } else {
        (fraction + 0x10_0000_0000_0000, exponent - 1)
    }
}

// The bits, which tell the float.
#[tactic(auto, using(float_codes::proofs::NearestLemmas::bits_back))]
fn bits_of(value: f64) -> u64
    requires { NotNan value }
    ensures { from_bits binary64 result ≡ value }
{
    value.to_bits()
}
