// A number in the headers of one trace, by its place.
ghost use Rattle.std.specs.Prelude.{◌≡◌, Some};
ghost use Rattle.trace_view.specs.Shown.{bytes_of, head_of};
ghost use Rattle.bench_rules.specs.Refused.{set_refusal as refusal_of_set};

use crate::refusal::Refusal;
use field_map::Place;
use num_order::{Order, fits, write};
use trace_view::TraceView;

/// The first refusal of a value at the place: E03, E04, E06.
pub fn set_refusal(
    order: Order,
    trace: &TraceView<'_>,
    place: Place,
    value: i128,
) -> Option<Refusal>
    requires { order ≡ (head_of trace.now).order }
    ensures { result ≡ refusal_of_set (head_of trace.now) (bytes_of trace.now) (Some place) value }
{
    if trace.value(place).is_none() {
        return Some(Refusal::NoPlace);
    }
    if !fits(place.kind, value) {
        return Some(Refusal::DoesNotFit);
    }
    let mut buffer = [0u8; 8];
    let new = &mut buffer[..usize::from(place.kind.size)];
    write(order, place.kind, value, new);
    if trace.changed_length(u64::from(place.offset()), new) != Some(trace.length()) {
        return Some(Refusal::Frame);
    }
    None
}
