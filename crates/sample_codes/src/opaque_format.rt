ghost use Rattle.std.specs.Prelude.{◌≡◌};

use crate::format_fault::FormatFault;

/// A sample format whose samples are bytes without a value here.
#[derive(Clone, Copy, Debug, PartialEq, Eq)]
pub enum OpaqueFormat {
    /// Floating point of 4 bytes as IBM has it.
    IbmFloat32,
    /// Fixed point with gain, of 4 bytes.
    GainFixed32,
    /// Floating point of 4 bytes as IEEE 754 has it.
    IeeeFloat32,
    /// Floating point of 8 bytes as IEEE 754 has it.
    IeeeFloat64,
}

impl OpaqueFormat {
    ghost use Rattle.sample_codes.specs.Formats.{opaque_code, opaque_width, opaque_of, fault_of};

    /// The opaque format with this code, if there is one. Takes no memory.
    pub fn of(code: u16) -> Option<OpaqueFormat>
        ensures { result ≡ opaque_of code }
    {
        match code {
            1 => Some(OpaqueFormat::IbmFloat32),
            4 => Some(OpaqueFormat::GainFixed32),
            5 => Some(OpaqueFormat::IeeeFloat32),
            6 => Some(OpaqueFormat::IeeeFloat64),
            _ => None,
        }
    }

    /// The format's code in the binary header. Takes no memory.
    pub fn code(self) -> u16
        ensures { result ≡ opaque_code self }
    {
        match self {
            OpaqueFormat::IbmFloat32 => 1,
            OpaqueFormat::GainFixed32 => 4,
            OpaqueFormat::IeeeFloat32 => 5,
            OpaqueFormat::IeeeFloat64 => 6,
        }
    }

    /// How many bytes a sample has. Takes no memory.
    pub fn width(self) -> u8
        ensures { result ≡ opaque_width self }
    {
        match self {
            OpaqueFormat::IbmFloat32 | OpaqueFormat::GainFixed32 | OpaqueFormat::IeeeFloat32 => 4,
            OpaqueFormat::IeeeFloat64 => 8,
        }
    }

    /// Why the format is refused where every sample is to have a value. Takes no memory.
    pub fn fault(self) -> FormatFault
        ensures { result ≡ fault_of self }
    {
        match self {
            OpaqueFormat::GainFixed32 => FormatFault::Gain,
            OpaqueFormat::IbmFloat32 | OpaqueFormat::IeeeFloat32 | OpaqueFormat::IeeeFloat64 => {
                FormatFault::Float
            }
        }
    }
}
