// IBM's hexadecimal floats of 4 bytes.
ghost use Rattle.std.specs.Prelude.{◌≡◌, ◌<◌, ◌≤◌, ◌^◌, ◌*◌, ◌+◌, ◌-◌, ◌/◌, IfSome, from_bits};
ghost use Rattle.std.specs.Float.{NotNan, binary64};
ghost use Rattle.std.specs.Float.Ieee.Nearest.{closest};
ghost use Rattle.float_codes.specs.Values.{ibm_value};
ghost use Rattle.float_codes.specs.Nearest.{ibm_pattern, ibm_pack, ibm_at};

/// The value of an IBM pattern, exactly: the fraction and the power of two, which carries the sign,
/// are floats exactly, and so is their product. Takes no memory.
#[inline(always)]
pub fn value(bits: u32) -> f64
    ensures { result ≡ ibm_value bits }
{
    let fraction = (bits % 0x100_0000) as f64;
    let exponent = u64::from(bits / 0x100_0000 % 128);
    let negative = u64::from(bits / 0x8000_0000);
    let scale = f64::from_bits(
        negative * 0x8000_0000_0000_0000 + (4 * exponent + 743) * 0x10_0000_0000_0000,
    );
    fraction * scale
}

// The pattern of the nearest value.
pub fn nearest(value: f64) -> Option<u32>
    ensures { result ≡ ibm_pattern value }
{
    if !value.is_finite() {
        return None;
    }
    let bits = bits_of(value);
    let negative = 0x8000_0000_0000_0000 <= bits;
    let exponent = bits / 0x10_0000_0000_0000 % 2048;
    // far below the smallest value
    if exponent < 741 {
        return packed(negative, 0, 0);
    }
    let digits = bits % 0x10_0000_0000_0000 + 0x10_0000_0000_0000;
    let dropped = if exponent < 763 {
        0
    } else {
        (exponent - 763) / 4
    };
    let fraction = shifted(digits, 795 + 4 * dropped - exponent);
    packed(negative, dropped, fraction)
}

// The bits, which tell the float.
#[tactic(auto, using(crate::proofs::NearestLemmas::bits_back))]
fn bits_of(value: f64) -> u64
    requires { NotNan value }
    ensures { from_bits binary64 result ≡ value }
{
    value.to_bits()
}

// The digits over a power of two, to the nearest, of two to the even one.
fn shifted(digits: u64, by: u64) -> u64
    requires digits { digits < 2 ^ 53 }
    requires by { (29 ≤ by) × (by ≤ 54) }
    ensures value { result ≡ closest digits (2 ^ by) }
    ensures small { result ≤ 2 ^ 24 }
{
    let unit = 1 << by;
    let quotient = digits / unit;
    let rest = digits % unit * 2;
    if rest < unit {
        quotient
    } else if rest == unit {
        quotient + quotient % 2
    } else {
        quotient + 1
    }
}

// The pattern of its parts. A fraction of 1 has one hexadecimal digit less.
fn packed(negative: bool, exponent: u64, fraction: u64) -> Option<u32>
    requires exponent { exponent < 400 }
    requires fraction { fraction ≤ 2 ^ 24 }
    ensures { result ≡ ibm_pack negative exponent fraction }
{
    if fraction == 0x100_0000 {
        at(negative, exponent + 1, 0x10_0000)
    } else {
        at(negative, exponent, fraction)
    }
}

fn at(negative: bool, exponent: u64, fraction: u64) -> Option<u32>
    requires fraction { fraction < 2 ^ 24 }
    ensures { result ≡ ibm_at negative exponent fraction }
{
    if 128 <= exponent {
        return None;
    }
    let sign = if negative { 0x8000_0000 } else { 0 };
    Some(sign + (exponent as u32) * 0x100_0000 + fraction as u32)
}
