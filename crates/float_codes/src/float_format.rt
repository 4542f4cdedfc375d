ghost use Rattle.std.specs.Prelude.{◌≡◌, ◌<◌, ◌^◌, ◌*◌, length, IfSome, IsTrue};

use crate::ibm;
use crate::ranks::{rank_of, value_at};
use num_order::{Kind, Order};

/// A sample format of floats.
#[derive(Clone, Copy, Debug, PartialEq, Eq)]
pub enum FloatFormat {
    /// Hexadecimal floating point of 4 bytes as IBM has it.
    Ibm32,
    /// Floating point of 4 bytes as IEEE 754 has it.
    Ieee32,
    /// Floating point of 8 bytes as IEEE 754 has it.
    Ieee64,
}

impl FloatFormat {
    ghost use Rattle.float_codes.specs.Values.{float_width, float_of_bits, sample_float};
    ghost use Rattle.float_codes.specs.Nearest.{pattern_of};
    ghost use Rattle.float_codes.specs.Ranks.{rank_of as rank_of_float};
    ghost use Rattle.float_codes.specs.Codes.{sample_rank, rank_fits, rank_bytes};

    /// How many bytes a sample has. Takes no memory.
    pub fn width(self) -> u8
        ensures { result ≡ float_width self }
    {
        match self {
            FloatFormat::Ibm32 | FloatFormat::Ieee32 => 4,
            FloatFormat::Ieee64 => 8,
        }
    }

    /// The value of one sample's bytes, exactly. Takes no memory.
    #[inline(always)]
    pub fn value(self, order: Order, bytes: &[u8]) -> f64
        requires { length bytes.now ≡ float_width self }
        ensures { result ≡ sample_float order self bytes.now }
    {
        match self {
            FloatFormat::Ibm32 => ibm::value(num_order::u32_at(order, bytes, 0)),
            FloatFormat::Ieee32 => {
                let narrow = std::num::f32_from_bits_with_nan(num_order::u32_at(order, bytes, 0));
                std::num::f32_to_f64_with_nan(narrow)
            }
            FloatFormat::Ieee64 => {
                std::num::f64_from_bits_with_nan(num_order::u64_at(order, bytes, 0))
            }
        }
    }

    /// The pattern of the format's value that is nearest to this one, of two the even one. None
    /// where it lies beyond the greatest, and at IBM's none for what is no number or infinite.
    /// Takes no memory.
    pub fn pattern(self, value: f64) -> Option<u64>
        ensures value { result ≡ pattern_of self value }
        ensures small { IfSome result (λ p. p < 2 ^ (8 * float_width self)) }
    {
        match self {
            FloatFormat::Ibm32 => Some(u64::from(ibm::nearest(value)?)),
            FloatFormat::Ieee32 => {
                let narrow = std::num::nearest_f64_to_f32_with_nan(value);
                if value.is_finite() && !narrow.is_finite() {
                    return None;
                }
                Some(u64::from(std::num::f32_to_bits_with_nan(narrow)))
            }
            FloatFormat::Ieee64 => Some(std::num::f64_to_bits_with_nan(value)),
        }
    }

    /// The rank of the value of one sample's bytes. Takes no memory.
    #[inline(always)]
    pub fn decode(self, order: Order, bytes: &[u8]) -> i64
        requires { length bytes.now ≡ float_width self }
        ensures { result ≡ sample_rank order self bytes.now }
    {
        rank_of(self.value(order, bytes))
    }

    /// Whether the number is the rank of a value that the format has, exactly. Takes no memory.
    pub fn fits(self, rank: i128) -> bool
        ensures { result ≡ rank_fits self rank }
    {
        match i64::try_from(rank) {
            Ok(rank) => self.has(rank),
            Err(_) => false,
        }
    }

    // Whether the format has the value of this rank.
    fn has(self, rank: i64) -> bool
        ensures { result ≡ rank_fits self rank }
    {
        match self.pattern(value_at(rank)) {
            Some(pattern) => self.rank(pattern) == rank,
            None => false,
        }
    }

    /// The rank of the value of a sample's pattern: its bytes as one number. Takes no memory.
    #[inline(always)]
    pub fn rank(self, pattern: u64) -> i64
        requires { pattern < 2 ^ (8 * float_width self) }
        ensures { result ≡ rank_of_float (float_of_bits self pattern) }
    {
        rank_of(self.value_of(pattern))
    }

    // The value of a pattern.
    #[inline(always)]
    fn value_of(self, pattern: u64) -> f64
        requires { pattern < 2 ^ (8 * float_width self) }
        ensures { result ≡ float_of_bits self pattern }
    {
        match self {
            FloatFormat::Ibm32 => ibm::value(pattern as u32),
            FloatFormat::Ieee32 => {
                let narrow = std::num::f32_from_bits_with_nan(pattern as u32);
                std::num::f32_to_f64_with_nan(narrow)
            }
            FloatFormat::Ieee64 => std::num::f64_from_bits_with_nan(pattern),
        }
    }

    /// Writes the value of this rank, which the format has, over the bytes of one sample. Takes no
    /// memory.
    pub fn encode(self, order: Order, rank: i64, bytes: &mut [u8])
        requires whole { length bytes.old ≡ float_width self }
        requires fits { IsTrue (rank_fits self rank) }
        ensures bytes { bytes.new ≡ rank_bytes order self rank }
        ensures reads_back { sample_rank order self bytes.new ≡ rank }
    {
        num_order::reads_back();
        if let Some(pattern) = self.pattern(value_at(rank)) {
            let kind = Kind {
                size: self.width(),
                signed: false,
            };
            num_order::write(order, kind, i128::from(pattern), bytes);
        }
    }
}
