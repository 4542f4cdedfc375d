// Floats as text: the shortest decimal that reads back as the same float.
ghost use Rattle.std.specs.Prelude.{◌≡◌, ◌<◌, ◌≤◌, length, All, IsAscii, if◌then◌else◌, true, false};
ghost use Rattle.std.specs.Float.{NotNan};
ghost use Rattle.float_text.specs.Texts.{text_format, shown, ReadsBack, is_up_to_whole, has_point_zero, without_point_zero, IsTextOf};

use fast_float::Numeral;
use float_codes::FloatFormat;
use ryu::Buffer;

// Up to 2 ^ 53 each whole number is a float.
const WHOLE: f64 = 9007199254740992.0;

/// The value as the shortest decimal that reads back as it, at binary32 as the nearest binary32,
/// without `.0` where its amount is at most 2 ^ 53; or `nan`, `inf`, `-inf`. Takes no memory.
pub fn text<'a>(format: FloatFormat, value: f64, buffer: &'a mut Buffer) -> &'a str
    ensures reads_back { ReadsBack format value result.now }
    ensures ascii { IsAscii result.now }
    ensures short { length result.now ≤ 25 }
    ensures some { 0 < length result.now }
    ensures no_space { All (λ c. 32 < c) result.now }
    ensures whole { is_up_to_whole value ≡ true → has_point_zero result.now ≡ false }
{
    if value.is_nan() {
        return "nan";
    }
    trimmed(full_text(format, value, buffer), is_up_to_whole(value))
}

fn is_up_to_whole(value: f64) -> bool
    ensures { result ≡ is_up_to_whole value }
{
    -WHOLE <= value && value <= WHOLE
}

// The text as the printer gives it.
fn full_text<'a>(format: FloatFormat, value: f64, buffer: &'a mut Buffer) -> &'a str
    requires { NotNan value }
    ensures is { IsTextOf (text_format format) (shown format value) result.now }
    ensures ascii { IsAscii result.now }
    ensures short { length result.now ≤ 25 }
{
    match format {
        FloatFormat::Ieee32 => buffer.format(std::num::nearest_f64_to_f32(value)),
        FloatFormat::Ibm32 | FloatFormat::Ieee64 => buffer.format(value),
    }
}

// Without the point and the 0 of a whole number, where that is asked for.
fn trimmed(text: &str, whole: bool) -> &str
    requires { IsAscii text.now }
    ensures value { result.now ≡ (if whole then without_point_zero text.now else text.now) }
    ensures ascii { IsAscii result.now }
    ensures short { length result.now ≤ length text.now }
{
    if !whole {
        return text;
    }
    let bytes = text.as_bytes();
    let size = if bytes.first() == Some(&b'-') {
        &bytes[1..]
    } else {
        bytes
    };
    let numeral = Numeral::scan(size);
    if numeral.fraction() == b"0".as_slice() && numeral.exponent().is_empty() {
        let end = bytes.len() - size.len() + numeral.whole().len();
        &text[..end]
    } else {
        text
    }
}
