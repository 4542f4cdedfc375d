// Integers of a kind read from bytes, written to bytes, and tested for their range.
ghost use Rattle.std.specs.Prelude.{◌≡◌, ◌^◌, ◌*◌, ◌-◌, ◌<◌, ℤ, pos, MatchBool, length};
ghost use Rattle.num_order.specs.Number.{num, bytes as bytes_of_number, fits as fits_kind, residue, IsSize, InRange};
ghost use Rattle.byteorder.specs.Endian.{twos_complement};

use crate::kind::Kind;
use crate::order::Order;
use byteorder::{BigEndian, ByteOrder, LittleEndian};

/// The number of the bytes, as many as the kind has. Takes no memory.
pub fn read(order: Order, kind: Kind, bytes: &[u8]) -> i128
    requires size { IsSize kind.size }
    requires whole { length bytes.now ≡ kind.size }
    ensures { result ≡ num order kind bytes.now }
{
    match order {
        Order::Big => read_by::<BigEndian>(kind, bytes),
        Order::Little => read_by::<LittleEndian>(kind, bytes),
    }
}

// The number of the bytes in the order T.
fn read_by<T: ByteOrder>(kind: Kind, bytes: &[u8]) -> i128
    requires size { IsSize kind.size }
    requires whole { length bytes.now ≡ kind.size }
    ensures { MatchBool kind.signed
        (result ≡ twos_complement kind.size (T.number_of kind.size bytes.now))
        (result ≡ pos (T.number_of kind.size bytes.now)) }
{
    let number = unsigned_of::<T>(kind.size, bytes);
    if kind.signed {
        from_unsigned(kind.size, number)
    } else {
        i128::from(number)
    }
}

// The number in two's complement.
fn from_unsigned(size: u8, number: u64) -> i128
    requires { IsSize size }
    ensures { result ≡ twos_complement size number }
{
    let half = half(size);
    let number = i128::from(number);
    if number < half {
        number
    } else {
        number - half - half
    }
}

// The number without a sign in the order T. A call for each size is much faster than one for any
// number of bytes.
fn unsigned_of<T: ByteOrder>(size: u8, bytes: &[u8]) -> u64
    requires size { IsSize size }
    requires whole { length bytes.now ≡ size }
    ensures { result ≡ T.number_of size bytes.now }
{
    match size {
        1 => T::read_uint(bytes, 1),
        2 => u64::from(T::read_u16(bytes)),
        3 => u64::from(T::read_u24(bytes)),
        4 => u64::from(T::read_u32(bytes)),
        _ => T::read_u64(bytes),
    }
}

// 256 to the power of the size.
fn modulus(size: u8) -> u128
    requires { IsSize size }
    ensures value { result ≡ 2 ^ (8 * size) }
{
    match size {
        1 => 0x100,
        2 => 0x1_0000,
        3 => 0x100_0000,
        4 => 0x1_0000_0000,
        _ => 0x1_0000_0000_0000_0000,
    }
}

// Half of that.
fn half(size: u8) -> i128
    requires { IsSize size }
    ensures value { result ≡ pos (2 ^ (8 * size - 1)) }
{
    match size {
        1 => 0x80,
        2 => 0x8000,
        3 => 0x80_0000,
        4 => 0x8000_0000,
        _ => 0x8000_0000_0000_0000,
    }
}

/// Whether the number is one of the kind's: whether its bytes can hold it. Takes no memory.
pub fn fits(kind: Kind, value: i128) -> bool
    requires { IsSize kind.size }
    ensures { result ≡ fits_kind kind value }
{
    if kind.signed {
        let half = half(kind.size);
        -half <= value && value < half
    } else {
        0 <= value && value.unsigned_abs() < modulus(kind.size)
    }
}

/// Writes the number over the bytes, as many as the kind has. Takes no memory.
pub fn write(order: Order, kind: Kind, value: i128, bytes: &mut [u8])
    requires size { IsSize kind.size }
    requires whole { length bytes.old ≡ kind.size }
    requires fits { InRange kind value }
    ensures { bytes.new ≡ bytes_of_number order kind value }
{
    let rest = residue_of(kind, value);
    match order {
        Order::Big => write_unsigned::<BigEndian>(kind.size, rest, bytes),
        Order::Little => write_unsigned::<LittleEndian>(kind.size, rest, bytes),
    }
}

// Writes the number without a sign in the order T. A call for each size is much faster than one for
// any number of bytes.
fn write_unsigned<T: ByteOrder>(size: u8, number: u64, bytes: &mut [u8])
    requires size { IsSize size }
    requires whole { length bytes.old ≡ size }
    requires fits { number < 2 ^ (8 * size) }
    ensures { bytes.new ≡ T.bytes_of size number }
{
    match size {
        1 => T::write_uint(bytes, number, 1),
        2 => T::write_u16(bytes, number as u16),
        3 => T::write_u24(bytes, number as u32),
        4 => T::write_u32(bytes, number as u32),
        _ => T::write_u64(bytes, number),
    }
}

// The number below 256 ^ size with the same last bytes.
#[tactic(auto, using(crate::proofs::RangeLemmas::ranges))]
fn residue_of(kind: Kind, value: i128) -> u64
    requires size { IsSize kind.size }
    requires fits { InRange kind value }
    ensures value { result ≡ residue kind.size value }
    ensures fits { result < 2 ^ (8 * kind.size) }
{
    if value < 0 {
        (modulus(kind.size) - value.unsigned_abs()) as u64
    } else {
        value.unsigned_abs() as u64
    }
}
