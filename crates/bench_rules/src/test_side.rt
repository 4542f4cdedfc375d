// A side of a condition, with the place of its field.
ghost use Rattle.std.specs.Prelude.{◌≡◌};
ghost use Rattle.trace_view.specs.Shown.{bytes_of, head_of};
ghost use Rattle.trace_view.specs.Values.{has_floats as has_floats_in};
ghost use Rattle.bench_rules.specs.Conditions.{side_by, side_of as side_of_condition};
ghost use Rattle.bench_rules.specs.SampleFacts.{fact_of as fact_of_operand};

use crate::computation::{term_in, term_of};
use crate::field::Field;
use crate::operand::Operand;
use crate::sample_fact::{SampleFact, fact_named, fact_value};
use crate::side::Side;
use crate::side_value::SideValue;
use crate::term::Term;
use exact_amounts::Amount;
use field_map::FieldMap;
use trace_record::Amplitudes;
use trace_view::TraceView;

/// A side of a condition whose field is found.
#[derive(Clone, Copy, Debug, PartialEq, Eq)]
pub enum TestSide {
    Term(Term),
    Decimal(Amount),
    Fact(SampleFact),
}

/// The side with the place of its field, where that has one, else the fact of that name. Takes no
/// memory.
pub(crate) fn side_of(map: &FieldMap, side: &Side) -> Option<TestSide>
    ensures { result ≡ side_of_condition map.now.pairs side.now }
{
    match side {
        Side::Decimal(amount) => Some(TestSide::Decimal(*amount)),
        Side::Operand(operand) => match term_of(map, operand) {
            Some(term) => Some(TestSide::Term(term)),
            None => match fact_of(operand) {
                Some(fact) => Some(TestSide::Fact(fact)),
                None => None,
            },
        },
    }
}

// The fact that the operand names.
fn fact_of(operand: &Operand) -> Option<SampleFact>
    ensures { result ≡ fact_of_operand operand.now }
{
    match operand {
        Operand::Number(_) => None,
        Operand::Field(field) => match field {
            Field::Place(_) => None,
            Field::Name(name) => fact_named(name.as_str()),
        },
    }
}

/// What the side says of a trace whose samples have these amplitudes; `None` where the trace lacks
/// its place. Takes no memory.
pub(crate) fn value_of(
    trace: &TraceView<'_>,
    amplitudes: Option<Amplitudes>,
    side: TestSide,
) -> Option<SideValue>
    ensures { result ≡ side_by (head_of trace.now) (bytes_of trace.now) amplitudes side }
{
    match side {
        TestSide::Term(term) => match term_in(trace, term) {
            Some(number) => Some(SideValue::Whole(number)),
            None => None,
        },
        TestSide::Decimal(amount) => Some(SideValue::Decimal(amount)),
        TestSide::Fact(fact) => {
            let floats = has_floats(trace);
            Some(fact_value(floats, amplitudes, trace.sample_count(), fact))
        }
    }
}

// Whether the samples of the trace are floats.
fn has_floats(trace: &TraceView<'_>) -> bool
    ensures { result ≡ has_floats_in (head_of trace.now) }
{
    match trace.head().format.values() {
        Some(format) => format.is_float(),
        None => false,
    }
}
