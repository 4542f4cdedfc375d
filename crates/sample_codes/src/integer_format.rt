ghost use Rattle.std.specs.Prelude.{◌≡◌, length, IsTrue};
ghost use Rattle.num_order.specs.Number.{num, bytes as bytes_of, fits as is_of};

use num_order::{Kind, Order};

/// A sample format of whole numbers, named for its sign and its bits: two's complement, or
/// unsigned.
#[derive(Clone, Copy, Debug, PartialEq, Eq)]
pub enum IntegerFormat {
    Signed32,
    Signed16,
    Signed24,
    Signed8,
    Signed64,
    Unsigned32,
    Unsigned16,
    Unsigned64,
    Unsigned24,
    Unsigned8,
}

impl IntegerFormat {
    ghost use Rattle.sample_codes.specs.Formats.{integer_code, integer_width, kind_of, integer_of};

    /// The integer format with this code, if there is one. Takes no memory.
    pub fn of(code: u16) -> Option<IntegerFormat>
        ensures { result ≡ integer_of code }
    {
        match code {
            2 => Some(IntegerFormat::Signed32),
            3 => Some(IntegerFormat::Signed16),
            7 => Some(IntegerFormat::Signed24),
            8 => Some(IntegerFormat::Signed8),
            9 => Some(IntegerFormat::Signed64),
            10 => Some(IntegerFormat::Unsigned32),
            11 => Some(IntegerFormat::Unsigned16),
            12 => Some(IntegerFormat::Unsigned64),
            15 => Some(IntegerFormat::Unsigned24),
            16 => Some(IntegerFormat::Unsigned8),
            _ => None,
        }
    }

    /// The format's code in the binary header. Takes no memory.
    pub fn code(self) -> u16
        ensures { result ≡ integer_code self }
    {
        match self {
            IntegerFormat::Signed32 => 2,
            IntegerFormat::Signed16 => 3,
            IntegerFormat::Signed24 => 7,
            IntegerFormat::Signed8 => 8,
            IntegerFormat::Signed64 => 9,
            IntegerFormat::Unsigned32 => 10,
            IntegerFormat::Unsigned16 => 11,
            IntegerFormat::Unsigned64 => 12,
            IntegerFormat::Unsigned24 => 15,
            IntegerFormat::Unsigned8 => 16,
        }
    }

    /// How many bytes a sample has. Takes no memory.
    pub fn width(self) -> u8
        ensures { result ≡ integer_width self }
    {
        match self {
            IntegerFormat::Signed8 | IntegerFormat::Unsigned8 => 1,
            IntegerFormat::Signed16 | IntegerFormat::Unsigned16 => 2,
            IntegerFormat::Signed24 | IntegerFormat::Unsigned24 => 3,
            IntegerFormat::Signed32 | IntegerFormat::Unsigned32 => 4,
            IntegerFormat::Signed64 | IntegerFormat::Unsigned64 => 8,
        }
    }

    /// A sample as a kind of number: its size in bytes, and whether it is in two's complement.
    /// Takes no memory.
    pub fn kind(self) -> Kind
        ensures { result ≡ kind_of self }
    {
        let signed = match self {
            IntegerFormat::Signed8
            | IntegerFormat::Signed16
            | IntegerFormat::Signed24
            | IntegerFormat::Signed32
            | IntegerFormat::Signed64 => true,
            IntegerFormat::Unsigned8
            | IntegerFormat::Unsigned16
            | IntegerFormat::Unsigned24
            | IntegerFormat::Unsigned32
            | IntegerFormat::Unsigned64 => false,
        };
        Kind {
            size: self.width(),
            signed,
        }
    }

    /// The number of one sample's bytes. Takes no memory.
    pub fn decode(self, order: Order, bytes: &[u8]) -> i128
        requires { length bytes.now ≡ integer_width self }
        ensures { result ≡ num order (kind_of self) bytes.now }
    {
        num_order::read(order, self.kind(), bytes)
    }

    /// Whether the format has the number: whether one sample can hold it. Takes no memory.
    pub fn fits(self, value: i128) -> bool
        ensures { result ≡ is_of (kind_of self) value }
    {
        num_order::fits(self.kind(), value)
    }

    /// Writes the number over the bytes of one sample. Takes no memory.
    pub fn encode(self, order: Order, value: i128, bytes: &mut [u8])
        requires whole { length bytes.old ≡ integer_width self }
        requires fits { IsTrue (is_of (kind_of self) value) }
        ensures { bytes.new ≡ bytes_of order (kind_of self) value }
    {
        num_order::write(order, self.kind(), value, bytes);
    }
}
