// Numbers in the headers of a trace, wherever they stand.
ghost use Rattle.std.specs.Prelude.{◌≡◌, ◌+◌, ◌-◌, ◌*◌, ◌<◌, ◌≤◌, ◌⊎◌, ◌&&◌, ◌||◌, ◌==◌, true, take, drop, length};
ghost use Rattle.num_order.specs.Number.{unsigned, num};
ghost use Rattle.trace_view.specs.Shown.{bytes_of, head_of};
ghost use Rattle.trace_view.specs.Values.{has_place, value_at};
ghost use Rattle.trace_record.specs.OfTrace.{has_known_name_of};

use byteorder::{BigEndian, ByteOrder, LittleEndian};
use field_map::Place;
use num_order::Order;
use trace_view::TraceView;

// The number of the two bytes without a sign.
fn u16_of(order: Order, bytes: &[u8]) -> u16
    requires { length bytes.now ≡ 2 }
    ensures { result ≡ unsigned order bytes.now }
{
    match order {
        Order::Big => BigEndian::read_u16(bytes),
        Order::Little => LittleEndian::read_u16(bytes),
    }
}

// The number of the four bytes without a sign.
fn u32_of(order: Order, bytes: &[u8]) -> u32
    requires { length bytes.now ≡ 4 }
    ensures { result ≡ unsigned order bytes.now }
{
    match order {
        Order::Big => BigEndian::read_u32(bytes),
        Order::Little => LittleEndian::read_u32(bytes),
    }
}

// The number of the two bytes from this place of the trace on, counted from 0, without a sign.
pub(crate) fn u16_at(view: &TraceView<'_>, at: u64) -> u16
    requires { at + 2 ≤ length (bytes_of view.now) }
    ensures { result ≡ unsigned (head_of view.now).order (take 2 (drop at (bytes_of view.now))) }
{
    let mut bytes = [0; 2];
    view.read(at, &mut bytes);
    u16_of(view.head().order, &bytes)
}

// The number of the four bytes from this place of the trace on, counted from 0, without a sign.
fn u32_at(view: &TraceView<'_>, at: u64) -> u32
    requires { at + 4 ≤ length (bytes_of view.now) }
    ensures { result ≡ unsigned (head_of view.now).order (take 4 (drop at (bytes_of view.now))) }
{
    let mut bytes = [0; 4];
    view.read(at, &mut bytes);
    u32_of(view.head().order, &bytes)
}

// The number of two bytes in two's complement.
pub(crate) fn i16_at(view: &TraceView<'_>, at: u64) -> i16
    requires { at + 2 ≤ length (bytes_of view.now) }
    ensures { result ≡ num (head_of view.now).order (record { size = 2; signed = true })
        (take 2 (drop at (bytes_of view.now))) }
{
    u16_at(view, at).cast_signed()
}

// The number of four bytes in two's complement.
pub(crate) fn i32_at(view: &TraceView<'_>, at: u64) -> i32
    requires { at + 4 ≤ length (bytes_of view.now) }
    ensures { result ≡ num (head_of view.now).order (record { size = 4; signed = true })
        (take 4 (drop at (bytes_of view.now))) }
{
    u32_at(view, at).cast_signed()
}

// The number at a place of two bytes that the trace has.
pub(crate) fn short_at(view: &TraceView<'_>, place: Place) -> i16
    requires place { has_place (head_of view.now) (bytes_of view.now) place ≡ true }
    requires signed { place.kind.signed ≡ true }
    requires size { place.kind.size ≡ 2 }
    ensures { result ≡ value_at (head_of view.now) (bytes_of view.now) place }
{
    i16_at(view, u64::from(place.offset()))
}

// The number at a place of two or four bytes that the trace has.
pub(crate) fn signed_at(view: &TraceView<'_>, place: Place) -> i32
    requires place { has_place (head_of view.now) (bytes_of view.now) place ≡ true }
    requires signed { place.kind.signed ≡ true }
    requires size { (place.kind.size ≡ 2) ⊎ (place.kind.size ≡ 4) }
    ensures { result ≡ value_at (head_of view.now) (bytes_of view.now) place }
{
    if place.kind.size == 2 {
        i32::from(short_at(view, place))
    } else {
        i32_at(view, u64::from(place.offset()))
    }
}
