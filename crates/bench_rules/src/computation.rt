// A number computed from numbers and fields of one trace.
ghost use Rattle.std.specs.Prelude.{◌≡◌, Some, None, Ok, IfOk, IfErr, option_map};
ghost use Rattle.trace_view.specs.Shown.{bytes_of, head_of};
ghost use Rattle.bench_rules.specs.Computed.{chained_from, computed_in as number_computed_in, refusal_of_result, stepped, steps_in, term_in as number_of_term, term_of as term_of_operand, unless_refused};

use crate::calculation::calculate;
use crate::header_field::set_refusal;
use crate::of_volume::place_in_trace;
use crate::operand::Operand;
use crate::operator::Operator;
use crate::refusal::Refusal;
use crate::term::Term;
use field_map::{FieldMap, Place};
use num_order::Order;
use trace_view::TraceView;

/// The operand with the place of its field, where that has one. Takes no memory.
pub fn term_of(map: &FieldMap, operand: &Operand) -> Option<Term>
    ensures { result ≡ term_of_operand map.now.pairs operand.now }
{
    match operand {
        Operand::Number(number) => Some(Term::Number(*number)),
        Operand::Field(field) => match place_in_trace(map, field) {
            Some(place) => Some(Term::At(place)),
            None => None,
        },
    }
}

/// The number of a term in the trace; `None` where the trace lacks its place. Takes no memory.
pub fn term_in(trace: &TraceView<'_>, term: Term) -> Option<i128>
    ensures { result ≡ number_of_term (head_of trace.now) (bytes_of trace.now) term }
{
    match term {
        Term::Number(number) => Some(number),
        Term::At(place) => trace.value(place),
    }
}

/// The number of trace p after one more step, or the refusal of an earlier one, or that of this:
/// E13, E04. `None` where the trace lacks the place of the term, whatever there was before. Takes
/// no memory.
pub fn after_step(
    trace: &TraceView<'_>,
    p: u32,
    number: Result<i128, Refusal>,
    operator: Operator,
    term: Term,
) -> Option<Result<i128, Refusal>>
    ensures { result ≡ option_map (λ x. unless_refused number (λ a. stepped p operator a x))
        (number_of_term (head_of trace.now) (bytes_of trace.now) term) }
{
    let operand = term_in(trace, term)?;
    match number {
        Ok(number) => Some(calculate(p, operator, number, operand)),
        Err(refusal) => Some(Err(refusal)),
    }
}

/// The number that the source and the steps make for trace p: E03 where the trace lacks the place
/// or that of one of the terms, then E13 or E04 of the first step that has no number. Reads each
/// term once, and takes no memory.
pub fn computed_in(
    trace: &TraceView<'_>,
    p: u32,
    place: Place,
    source: Term,
    steps: &[(Operator, Term)],
) -> Result<i128, Refusal>
    ensures { result ≡ number_computed_in (head_of trace.now) (record {
      place = place;
      source = source;
      steps = steps.now;
    }) p (bytes_of trace.now) }
{
    if trace.value(place).is_none() {
        return Err(Refusal::NoPlace);
    }
    match term_in(trace, source) {
        Some(first) => chained(trace, p, first, steps),
        None => Err(Refusal::NoPlace),
    }
}

// The number of trace p that the steps make of the first one.
fn chained(
    trace: &TraceView<'_>,
    p: u32,
    first: i128,
    steps: &[(Operator, Term)],
) -> Result<i128, Refusal>
    ensures { result ≡ chained_from p (Some first)
        (steps_in (head_of trace.now) (bytes_of trace.now) steps.now) }
{
    let mut number = Ok(first);
    for step in steps {
        let (operator, term) = *step;
        match after_step(trace, p, number, operator, term) {
            Some(next) => number = next,
            None => return Err(Refusal::NoPlace),
        }
    }
    number
}

/// The number that is computed, unless it is refused, or its set at the place in the trace: E03,
/// E13, E04, E06. Takes no memory.
pub fn admitted(
    order: Order,
    trace: &TraceView<'_>,
    place: Place,
    number: Result<i128, Refusal>,
) -> Result<i128, Refusal>
    requires { order ≡ (head_of trace.now).order }
    ensures ok { IfOk result (λ x. (number ≡ Ok x) × (refusal_of_result (head_of trace.now)
        (bytes_of trace.now) place number ≡ None)) }
    ensures err { IfErr result (λ refusal. refusal_of_result (head_of trace.now)
        (bytes_of trace.now) place number ≡ Some refusal) }
{
    let value = number?;
    match set_refusal(order, trace, place, value) {
        Some(refusal) => Err(refusal),
        None => Ok(value),
    }
}
