// A condition on one trace.
ghost use Rattle.std.specs.Prelude.{◌≡◌, option_map, option_and_then};
ghost use Rattle.std.specs.List.{list_any};
ghost use Rattle.std.specs.Ordering.{int_cmp};
ghost use Rattle.trace_view.specs.Shown.{bytes_of, head_of};
ghost use Rattle.bench_rules.specs.Computed.{term_in as number_of_term};
ghost use Rattle.bench_rules.specs.Conditions.{are_comparable as may_compare, asks_values as asks_values_of, lacks_values as lack_values, meets_by, test_by, test_of as test_of_condition};
ghost use Rattle.bench_rules.specs.SideValues.{admits as admits_order};
ghost use Rattle.bench_rules.specs.SampleFacts.{is_decimal as is_a_decimal, is_extreme as is_an_extreme};

use crate::comparison::{Comparison, admits, compares};
use crate::computation::term_in;
use crate::condition::Condition;
use crate::sample_fact::SampleFact;
use crate::term::Term;
use crate::test_side::{TestSide, side_of, value_of};
use field_map::FieldMap;
use sample_codes::Format;
use trace_record::Amplitudes;
use trace_view::TraceView;

/// A condition whose fields are found.
#[derive(Clone, Copy, Debug, PartialEq, Eq)]
pub struct Test {
    pub left: TestSide,
    pub comparison: Comparison,
    pub right: TestSide,
}

/// The condition with the places of its fields, where each has one or names a fact about samples,
/// and where a decimal is beside the least or the greatest sample alone. Takes no memory.
pub fn test_of(map: &FieldMap, condition: &Condition) -> Option<Test>
    ensures { result ≡ test_of_condition map.now.pairs condition.now }
{
    let left = side_of(map, &condition.left)?;
    let right = side_of(map, &condition.right)?;
    if !are_comparable(left, right) {
        return None;
    }
    Some(Test {
        left,
        comparison: condition.comparison,
        right,
    })
}

// Whether each decimal of the two is beside the least or the greatest sample.
fn are_comparable(left: TestSide, right: TestSide) -> bool
    ensures { result ≡ may_compare left right }
{
    (!is_decimal(left) || is_extreme(right)) && (!is_decimal(right) || is_extreme(left))
}

fn is_decimal(side: TestSide) -> bool
    ensures { result ≡ is_a_decimal side }
{
    match side {
        TestSide::Decimal(_) => true,
        TestSide::Term(_) | TestSide::Fact(_) => false,
    }
}

// Whether it is the least or the greatest sample.
fn is_extreme(side: TestSide) -> bool
    ensures { result ≡ is_an_extreme side }
{
    match side {
        TestSide::Fact(fact) => match fact {
            SampleFact::Least | SampleFact::Greatest => true,
            SampleFact::Count => false,
        },
        TestSide::Term(_) | TestSide::Decimal(_) => false,
    }
}

/// Whether a condition asks for values of samples, and those of the format have none: E12. Takes no
/// memory.
pub fn lacks_values(format: Format, tests: &[Test]) -> bool
    ensures { result ≡ lack_values format tests.now }
{
    ask_values(tests) && format.values().is_none()
}

/// Whether one of the conditions is on the least or the greatest sample. Takes no memory.
pub fn ask_values(tests: &[Test]) -> bool
    ensures { result ≡ list_any asks_values_of tests.now }
{
    for test in tests {
        if asks_values(*test) {
            return true;
        }
    }
    false
}

// Whether the condition is on the least or the greatest sample.
fn asks_values(test: Test) -> bool
    ensures { result ≡ asks_values_of test }
{
    is_extreme(test.left) || is_extreme(test.right)
}

/// Whether a trace whose samples have these amplitudes meets all conditions; `None` where it lacks
/// a place of one of them, whatever the others say. Takes no memory.
pub fn meets_all(
    trace: &TraceView<'_>,
    amplitudes: Option<Amplitudes>,
    tests: &[Test],
) -> Option<bool>
    ensures { result ≡ meets_by (head_of trace.now) (bytes_of trace.now) amplitudes tests.now }
{
    let mut all = true;
    for test in tests {
        let Some(here) = meets_one(trace, amplitudes, test) else {
            return None;
        };
        all &= here;
    }
    Some(all)
}

// Whether the trace meets a condition; `None` where it lacks a place of it.
fn meets_one(trace: &TraceView<'_>, amplitudes: Option<Amplitudes>, test: &Test) -> Option<bool>
    ensures { result ≡ test_by (head_of trace.now) (bytes_of trace.now) amplitudes test.now }
{
    // Most are on header fields and numbers alone.
    if let TestSide::Term(left) = test.left {
        if let TestSide::Term(right) = test.right {
            return meets_terms(trace, test.comparison, left, right);
        }
    }
    let left = value_of(trace, amplitudes, test.left)?;
    let right = value_of(trace, amplitudes, test.right)?;
    Some(compares(test.comparison, left, right))
}

// The same of a condition on two terms: their numbers are compared as they are.
fn meets_terms(
    trace: &TraceView<'_>,
    comparison: Comparison,
    left: Term,
    right: Term,
) -> Option<bool>
    ensures { result ≡ option_and_then (λ x. option_map (λ y. admits_order comparison (int_cmp x y))
        (number_of_term (head_of trace.now) (bytes_of trace.now) right))
        (number_of_term (head_of trace.now) (bytes_of trace.now) left) }
{
    let number = term_in(trace, left)?;
    let other = term_in(trace, right)?;
    Some(admits(comparison, number.cmp(&other)))
}
