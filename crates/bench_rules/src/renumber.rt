// A field of many traces counted up.
ghost use Rattle.std.specs.Prelude.{◌≡◌, ◌<◌, ℕ, Some, IsTrue, FitsSigned, IfOk, IfErr, IsErr};
ghost use Rattle.std.specs.Int.{w128};
ghost use Rattle.std.specs.Option.{SomeIff};
ghost use Rattle.room.specs.Refusals.{Rises};
ghost use Rattle.num_order.specs.Number.{IsSize, fits};
ghost use Rattle.trace_view.specs.Shown.{bytes_of, head_of};
ghost use Rattle.bench_rules.specs.Refused.{set_refusal as refusal_of_set};
ghost use Rattle.bench_rules.specs.TraceEdits.{counted, values_bytes as bytes_of_values};
ghost use Rattle.bench_rules.specs.declared.refusal.Refusal.TheVariants.{OutOfMemory as no_memory};

use crate::header_field::set_refusal;
use crate::refusal::Refusal;
use field_map::Place;
use num_order::{Kind, Order, write};
use room::Room;
use trace_view::TraceView;

/// The value that stands k steps behind the first; None where 128 bits cannot hold it, and then no
/// kind of number has it. Takes no memory.
pub fn counted_up(first: i128, step: i128, k: u32) -> Option<i128>
    ensures { SomeIff result (FitsSigned w128 (counted first step k)) (counted first step k) }
{
    // Each sum lies between the first value and the last, and so do the halves of their difference.
    let half = step.checked_mul(i128::from(k / 2))?;
    let value = first.checked_add(half)?.checked_add(half)?;
    if k % 2 == 0 {
        Some(value)
    } else {
        value.checked_add(step)
    }
}

/// The first refusal, at the place in the trace, of the value that stands k steps behind the first:
/// E03, E04, E06. Takes no memory.
pub fn renumber_refusal(
    order: Order,
    trace: &TraceView<'_>,
    place: Place,
    first: i128,
    step: i128,
    k: u32,
) -> Option<Refusal>
    requires { order ≡ (head_of trace.now).order }
    ensures { result ≡ refusal_of_set (head_of trace.now) (bytes_of trace.now) (Some place)
        (counted first step k) }
{
    match counted_up(first, step, k) {
        Some(value) => set_refusal(order, trace, place, value),
        None if trace.value(place).is_none() => Some(Refusal::NoPlace),
        None => Some(Refusal::DoesNotFit),
    }
}

/// The bytes of so many values, one after another: of first, first + step and so on. Takes memory
/// for all of them at once; refused for want of it alone.
pub fn values_bytes(
    room: &mut Room,
    order: Order,
    kind: Kind,
    first: i128,
    step: i128,
    count: u32,
) -> Result<Vec<u8>, Refusal>
    requires size { IsSize kind.size }
    requires fit { (k : ℕ) → k < count → IsTrue (fits kind (counted first step k)) }
    ensures ok { IfOk result (λ bytes. bytes.items ≡ bytes_of_values order kind first step count) }
    ensures err { IfErr result (λ refusal. refusal ≡ no_memory) }
    ensures memory { Rises (IsErr result) room.old room.new }
{
    let size = usize::from(kind.size);
    let mut bytes = room.told(Vec::with_capacity(room.alloc(), size * count as usize))?;
    let mut buffer = [0u8; 8];
    for k in 0..count {
        // Each value fits, as the caller shows.
        let Some(value) = counted_up(first, step, k) else {
            unreachable!();
        };
        let new = &mut buffer[..size];
        write(order, kind, value, new);
        room.told(bytes.extend_from_slice(new))?;
    }
    Ok(bytes)
}
