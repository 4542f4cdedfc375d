// A computation whose fields are found by name.
ghost use Rattle.std.specs.Prelude.{◌≡◌, Some, is_some, IfSome, IsNone, IsSome};
ghost use Rattle.room.specs.Refusals.{Rises};
ghost use Rattle.trace_view.specs.Shown.{bytes_of, head_of};
ghost use Rattle.bench_rules.specs.Computed.{chained_from, steps_of};
ghost use Rattle.bench_rules.specs.ManyTraces.{each_of};
ghost use Rattle.many_traces.specs.Formulas.{named_number_in, step_in};

use bench_rules::{Operand, Operator, Refusal, Term, after_step, term_in, term_of};
use field_map::{FieldMap, Place};
use room::Room;
use trace_view::TraceView;

/// Whether each field of the steps has a place. Takes no memory.
pub fn have_terms(map: &FieldMap, steps: &[(Operator, Operand)]) -> bool
    ensures { result ≡ is_some (steps_of map.now.pairs steps.now) }
{
    for step in steps {
        if term_of(map, &step.1).is_none() {
            return false;
        }
    }
    true
}

/// The steps with the places of their fields; `None` where one has none, or where there is no
/// memory for the list: only where a growth was refused in this call, if each has a place.
pub fn terms_of(
    room: &mut Room,
    map: &FieldMap,
    steps: &[(Operator, Operand)],
) -> Option<Vec<(Operator, Term)>>
    ensures terms { IfSome result (λ terms. steps_of map.now.pairs steps.now ≡ Some terms.items) }
    ensures memory { Rises (IsNone result × IsSome (steps_of map.now.pairs steps.now)) room.old
        room.new }
{
    let Ok(mut terms) = room.told(Vec::with_capacity(room.alloc(), steps.len())) else {
        return None;
    };
    for step in steps {
        let term = term_of(map, &step.1)?;
        let Ok(()) = room.told_back(terms.push((step.0, term))) else {
            return None;
        };
    }
    Some(terms)
}

/// The number of trace p, with the place of each step's field found anew: slower than with a list
/// of them, but without memory for it. E03 where the trace lacks a place, then E13 or E04 of the
/// first step that has no number.
pub fn computed_by_names(
    trace: &TraceView<'_>,
    map: &FieldMap,
    p: u32,
    place: Place,
    source: Term,
    steps: &[(Operator, Operand)],
) -> Result<i128, Refusal>
    ensures { result ≡ named_number_in (head_of trace.now) map.now.pairs place source steps.now p
        (bytes_of trace.now) }
{
    if trace.value(place).is_none() {
        return Err(Refusal::NoPlace);
    }
    match term_in(trace, source) {
        Some(first) => chained_by_names(trace, map, p, first, steps),
        None => Err(Refusal::NoPlace),
    }
}

// The number of trace p that the steps make of the first one.
fn chained_by_names(
    trace: &TraceView<'_>,
    map: &FieldMap,
    p: u32,
    first: i128,
    steps: &[(Operator, Operand)],
) -> Result<i128, Refusal>
    ensures { result ≡ chained_from p (Some first)
        (each_of (step_in (head_of trace.now) (bytes_of trace.now) map.now.pairs) steps.now) }
{
    let mut number = Ok(first);
    for step in steps {
        let Some(term) = term_of(map, &step.1) else {
            return Err(Refusal::NoPlace);
        };
        match after_step(trace, p, number, step.0, term) {
            Some(next) => number = next,
            None => return Err(Refusal::NoPlace),
        }
    }
    number
}
