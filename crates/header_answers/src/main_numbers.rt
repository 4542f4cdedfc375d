// Numbers of a trace whose main header is at hand as one slice of 240 bytes.
ghost use Rattle.std.specs.Prelude.{◌≡◌, ◌-◌, true, length, take, drop};
ghost use Rattle.num_order.specs.Number.{num};
ghost use Rattle.trace_view.specs.Shown.{bytes_of, head_of};
ghost use Rattle.trace_view.specs.Values.{main_header, is_in_header as is_in_header_of, value_of};

use field_map::Place;
use num_order::{Order, i16_at, i32_at, read};
use trace_view::TraceView;

/// The number at the place, where the trace has the place. These bytes are the trace's main header,
/// and a number of it is read from them; one of an extension is read through the view. Takes no
/// memory.
pub fn number_at(trace: &TraceView<'_>, main: &[u8], place: Place) -> Option<i128>
    requires { main.now ≡ main_header (bytes_of trace.now) }
    ensures { result ≡ value_of (head_of trace.now) (bytes_of trace.now) place }
{
    if place.extension == 0 && is_in_header(place) {
        Some(number_in(trace.head().order, main, place))
    } else {
        trace.value(place)
    }
}

// The number at a place of the main header. Most have two or four bytes and a sign, and a size that
// the compiler knows is read faster.
fn number_in(order: Order, main: &[u8], place: Place) -> i128
    requires main { length main.now ≡ 240 }
    requires place { is_in_header_of place ≡ true }
    ensures { result ≡ num order place.kind
        (take place.kind.size (drop (place.byte - 1) main.now)) }
{
    let at = usize::from(place.byte) - 1;
    let size = usize::from(place.kind.size);
    if place.kind.signed && size == 2 {
        i128::from(i16_at(order, main, at))
    } else if place.kind.signed && size == 4 {
        i128::from(i32_at(order, main, at))
    } else {
        read(order, place.kind, &main[at..at + size])
    }
}

// Whether it is the place of a number inside a header of 240 bytes.
fn is_in_header(place: Place) -> bool
    ensures { result ≡ is_in_header_of place }
{
    place.kind.has_known_size()
        && 0 < place.byte
        && u32::from(place.byte) + u32::from(place.kind.size) < 242
}
