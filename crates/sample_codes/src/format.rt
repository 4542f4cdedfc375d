ghost use Rattle.std.specs.Prelude.{◌≡◌, IfSome};
ghost use Rattle.sample_codes.specs.Formats.{float_of as float_of_code, float_code as code_of_float};

use crate::format_fault::FormatFault;
use crate::integer_format::IntegerFormat;
use crate::opaque_format::OpaqueFormat;
use crate::value_format::ValueFormat;
use float_codes::FloatFormat;

/// A sample format. Its code stands in bytes 3225-3226 of the file, in the binary file header.
#[derive(Clone, Copy, Debug, PartialEq, Eq)]
pub enum Format {
    /// Samples have values.
    Valued(ValueFormat),
    /// Samples are bytes without a value here.
    Opaque(OpaqueFormat),
}

impl Format {
    ghost use Rattle.sample_codes.specs.Formats.{code_of, value_width, width as width_of, values as values_of, format_of, opaque_among, opaque_of};

    /// The format with this code, where floats, and formats without values, count only if they are
    /// asked for. Else their codes are refused: 1, 5 and 6 are `Float`, 4 is `Gain`. Where both are
    /// asked for, floats have their values. A code that the standard leaves unassigned is `Unknown`
    /// in any case. Takes no memory.
    pub fn of(code: u16, opaque: bool, floats: bool) -> Result<Format, FormatFault>
        ensures { result ≡ format_of opaque floats code }
    {
        if let Some(format) = IntegerFormat::of(code) {
            return Ok(Format::Valued(ValueFormat::Integer(format)));
        }
        if let Some(format) = float_of(code) {
            if floats {
                return Ok(Format::Valued(ValueFormat::Float(format)));
            }
        }
        Format::without_values(code, opaque)
    }

    // The format of the code of an opaque format.
    fn without_values(code: u16, opaque: bool) -> Result<Format, FormatFault>
        ensures { result ≡ opaque_among opaque (opaque_of code) }
    {
        match OpaqueFormat::of(code) {
            None => Err(FormatFault::Unknown),
            Some(format) => {
                if opaque {
                    Ok(Format::Opaque(format))
                } else {
                    Err(format.fault())
                }
            }
        }
    }

    /// The format's code in the binary header. Takes no memory.
    pub fn code(self) -> u16
        ensures { result ≡ code_of self }
    {
        match self {
            Format::Valued(ValueFormat::Integer(format)) => format.code(),
            Format::Valued(ValueFormat::Float(format)) => float_code(format),
            Format::Opaque(format) => format.code(),
        }
    }

    /// How many bytes a sample has. Takes no memory.
    pub fn width(self) -> u8
        ensures { result ≡ width_of self }
    {
        match self {
            Format::Valued(format) => format.width(),
            Format::Opaque(format) => format.width(),
        }
    }

    /// How samples are read, where they have values. Takes no memory.
    pub fn values(self) -> Option<ValueFormat>
        ensures values { result ≡ values_of self }
        ensures width { IfSome result (λ format. value_width format ≡ width_of self) }
    {
        match self {
            Format::Valued(format) => Some(format),
            Format::Opaque(_) => None,
        }
    }
}

// The float format with this code, if there is one.
fn float_of(code: u16) -> Option<FloatFormat>
    ensures { result ≡ float_of_code code }
{
    match code {
        1 => Some(FloatFormat::Ibm32),
        5 => Some(FloatFormat::Ieee32),
        6 => Some(FloatFormat::Ieee64),
        _ => None,
    }
}

// The float format's code in the binary header.
fn float_code(format: FloatFormat) -> u16
    ensures { result ≡ code_of_float format }
{
    match format {
        FloatFormat::Ibm32 => 1,
        FloatFormat::Ieee32 => 5,
        FloatFormat::Ieee64 => 6,
    }
}
