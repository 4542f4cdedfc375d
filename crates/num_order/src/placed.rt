// Numbers among other bytes, at a place counted from 0. The size of each is known to the compiler,
// so that it is one read.
ghost use Rattle.std.specs.Prelude.{◌≡◌, ◌+◌, ◌≤◌, length, take, drop, true};
ghost use Rattle.num_order.specs.Number.{unsigned, num};
ghost use Rattle.num_order.specs.declared.kind.Kind.{Kind};

use crate::kind::Kind;
use crate::number::read;
use crate::order::Order;

/// The number of the byte at place `at`, counted from 0. Takes no memory.
pub fn u8_at(order: Order, bytes: &[u8], at: usize) -> u8
    requires { at + 1 ≤ length bytes.now }
    ensures { result ≡ unsigned order (take 1 (drop at bytes.now)) }
{
    let kind = Kind {
        size: 1,
        signed: false,
    };
    read(order, kind, &bytes[at..at + 1]) as u8
}

/// The number of the two bytes from place `at` on, counted from 0, without a sign. Takes no memory.
pub fn u16_at(order: Order, bytes: &[u8], at: usize) -> u16
    requires { at + 2 ≤ length bytes.now }
    ensures { result ≡ unsigned order (take 2 (drop at bytes.now)) }
{
    let kind = Kind {
        size: 2,
        signed: false,
    };
    read(order, kind, &bytes[at..at + 2]) as u16
}

/// The number of the four bytes from place `at` on, counted from 0, without a sign. Takes no
/// memory.
pub fn u32_at(order: Order, bytes: &[u8], at: usize) -> u32
    requires { at + 4 ≤ length bytes.now }
    ensures { result ≡ unsigned order (take 4 (drop at bytes.now)) }
{
    let kind = Kind {
        size: 4,
        signed: false,
    };
    read(order, kind, &bytes[at..at + 4]) as u32
}

/// The number of the eight bytes from place `at` on, counted from 0, without a sign. Takes no
/// memory.
pub fn u64_at(order: Order, bytes: &[u8], at: usize) -> u64
    requires { at + 8 ≤ length bytes.now }
    ensures { result ≡ unsigned order (take 8 (drop at bytes.now)) }
{
    let kind = Kind {
        size: 8,
        signed: false,
    };
    read(order, kind, &bytes[at..at + 8]) as u64
}

/// The number of the two bytes from place `at` on, counted from 0, in two's complement. Takes no
/// memory.
pub fn i16_at(order: Order, bytes: &[u8], at: usize) -> i16
    requires { at + 2 ≤ length bytes.now }
    ensures { result ≡ num order (record { size = 2; signed = true }) (take 2 (drop at bytes.now)) }
{
    let kind = Kind {
        size: 2,
        signed: true,
    };
    read(order, kind, &bytes[at..at + 2]) as i16
}

/// The number of the four bytes from place `at` on, counted from 0, in two's complement. Takes no
/// memory.
pub fn i32_at(order: Order, bytes: &[u8], at: usize) -> i32
    requires { at + 4 ≤ length bytes.now }
    ensures { result ≡ num order (record { size = 4; signed = true }) (take 4 (drop at bytes.now)) }
{
    let kind = Kind {
        size: 4,
        signed: true,
    };
    read(order, kind, &bytes[at..at + 4]) as i32
}
