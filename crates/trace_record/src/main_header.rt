// Numbers in the main header of a trace, whose 240 bytes are one slice, and the name that it gives
// the trace.
ghost use Rattle.std.specs.Prelude.{◌≡◌, ◌-◌, length, take, drop};
ghost use Rattle.num_order.specs.Number.{num};
ghost use Rattle.trace_record.specs.NumberPlaces.{IsNumber, IsShort};
ghost use Rattle.trace_record.specs.OfTrace.{has_known_name_of};

use field_map::Place;
use num_order::{Order, i16_at, i32_at};

// The number at a place of two bytes.
#[inline(always)]
pub(crate) fn short_in(order: Order, main: &[u8], place: Place) -> i16
    requires main { length main.now ≡ 240 }
    requires place { IsShort place }
    ensures { result ≡ num order place.kind
        (take place.kind.size (drop (place.byte - 1) main.now)) }
{
    i16_at(order, main, usize::from(place.byte) - 1)
}

// The number at a place of two or four bytes.
#[inline(always)]
pub(crate) fn signed_in(order: Order, main: &[u8], place: Place) -> i32
    requires main { length main.now ≡ 240 }
    requires place { IsNumber place }
    ensures { result ≡ num order place.kind
        (take place.kind.size (drop (place.byte - 1) main.now)) }
{
    if place.kind.size == 2 {
        i32::from(short_in(order, main, place))
    } else {
        i32_at(order, main, usize::from(place.byte) - 1)
    }
}

// Whether bytes 233-240 are a name that means a plain trace: zeros, or SEG00000 in ASCII or EBCDIC.
pub(crate) fn has_known_name(main: &[u8]) -> bool
    requires { length main.now ≡ 240 }
    ensures { result ≡ has_known_name_of main.now }
{
    let mut name = [0; 8];
    name.copy_from_slice(&main[233 - 1..]);
    name == [0; 8]
        || name == *b"SEG00000"
        || name == [0xE2, 0xC5, 0xC7, 0xF0, 0xF0, 0xF0, 0xF0, 0xF0]
}
