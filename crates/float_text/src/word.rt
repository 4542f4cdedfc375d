// Words of a script that write a value.
ghost use Rattle.std.specs.Prelude.{◌≡◌};
ghost use Rattle.float_text.specs.Words.{reading_of, nearest_in, finite_reading};

use crate::floats::{infinite, not_a_number};
use crate::ibm_nearest::nearest_pattern;
use crate::reading::Reading;
use fast_float::Numeral;
use float_codes::FloatFormat;

/// What a word writes: a decimal with a point and an exponent or without, `nan`, `inf` or `-inf`.
/// The value is the nearest to the decimal, at a tie the even one: it is rounded once, whatever its
/// length. None where it is no such word: `+1`, `-nan`, `1e` and a lone point are none. Takes no
/// memory.
pub fn parse(format: FloatFormat, word: &[u8]) -> Option<Reading>
    ensures { result ≡ reading_of format word.now }
{
    if word == b"nan".as_slice() {
        return Some(Reading::Value(not_a_number()));
    }
    let negative = word.first() == Some(&b'-');
    let size = if negative { &word[1..] } else { word };
    if size == b"inf".as_slice() {
        return Some(Reading::Value(infinite(negative)));
    }
    let numeral = Numeral::scan(size);
    if numeral.has_digits() && numeral.len() == size.len() {
        return Some(nearest(format, negative, &numeral));
    }
    None
}

// The nearest value of a format to a decimal.
fn nearest(format: FloatFormat, negative: bool, decimal: &Numeral) -> Reading
    ensures { result ≡ nearest_in format negative decimal.now }
{
    match format {
        FloatFormat::Ibm32 => match nearest_pattern(negative, decimal) {
            Some(pattern) => Reading::Value(float_codes::ibm_value(pattern)),
            None => Reading::PastGreatest { negative },
        },
        FloatFormat::Ieee32 => {
            let narrow: f32 = decimal.to_float(negative);
            finite(negative, std::num::f32_to_f64_with_nan(narrow))
        }
        FloatFormat::Ieee64 => finite(negative, decimal.to_float(negative)),
    }
}

// A float that a decimal was rounded to.
fn finite(negative: bool, value: f64) -> Reading
    ensures { result ≡ finite_reading negative value }
{
    if value.is_finite() {
        Reading::Value(value)
    } else {
        Reading::PastGreatest { negative }
    }
}
