// The floats that are no finite number.
ghost use Rattle.std.specs.Prelude.{◌≡◌};
ghost use Rattle.std.specs.Float.{inf, nan};

pub(crate) fn infinite(negative: bool) -> f64
    ensures { result ≡ inf negative }
{
    if negative {
        f64::NEG_INFINITY
    } else {
        f64::INFINITY
    }
}

pub(crate) fn not_a_number() -> f64
    ensures { result ≡ nan }
{
    f64::NAN
}
