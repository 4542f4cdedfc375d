// Conditions whose sides the records beside the traces tell.
ghost use Rattle.std.specs.Prelude.{◌≡◌, is_some, IfOk, IfSome, IsErr};
ghost use Rattle.room.specs.Refusals.{Rises};
ghost use Rattle.trace_record.specs.Facts.{facts_of};
ghost use Rattle.bench_rules.specs.RecordNumbers.{is_one_number as is_one_number_of, tells_place, tells_side, tells_term, tells_test, tells_tests};
ghost use Rattle.bench_rules.specs.declared.term.Term.TheVariants as terms;
ghost use Rattle.chosen_traces.specs.RecordTests.{hold as hold_all, number_of as number_in, value_in, AreTestsOf, IsSideOf, IsTermOf, IsTestOf};

use bench_rules::{Comparison, SampleFact, SideValue, Term, Test, TestSide, compares, fact_value};
use exact_amounts::Amount;
use field_map::{FieldMap, Place};
use num_order::Kind;
use room::{OutOfMemory, Room};
use trace_record::Record;

// Where the sequence number stands in each trace.
const SEQUENCE: Place = Place {
    extension: 0,
    byte: 5,
    kind: Kind {
        size: 4,
        signed: true,
    },
};

// A number, or one of those in a record.
#[derive(Clone, Copy)]
pub(crate) enum RecordTerm {
    Number(i128),
    Inline,
    Crossline,
    Offset,
    Sequence,
}

// A side of a condition, told by a record.
#[derive(Clone, Copy)]
pub(crate) enum RecordSide {
    Term(RecordTerm),
    Decimal(Amount),
    Fact(SampleFact),
}

// A condition on what a record tells.
#[derive(Clone, Copy)]
pub(crate) struct RecordTest {
    left: RecordSide,
    comparison: Comparison,
    right: RecordSide,
}

// The same conditions on the record of a trace; `None` where it does not tell a side of one.
pub(crate) fn record_tests(
    room: &mut Room,
    map: &FieldMap,
    tests: &[Test],
) -> Result<Option<Vec<RecordTest>>, OutOfMemory>
    ensures exact { IfOk result (λ told. is_some told ≡ tells_tests map.now.pairs tests.now) }
    ensures tests { IfOk result (λ told. IfSome told
        (λ made. AreTestsOf map.now.pairs tests.now made.items)) }
    ensures memory { Rises (IsErr result) room.old room.new }
{
    let mut told = room.told(Vec::with_capacity(room.alloc(), tests.len()))?;
    for test in tests {
        let Some(one) = record_test(map, *test) else {
            return Ok(None);
        };
        room.told_back(told.push(one))?;
    }
    Ok(Some(told))
}

// The same condition on the record of a trace; `None` where it does not tell a side.
fn record_test(map: &FieldMap, test: Test) -> Option<RecordTest>
    ensures exact { is_some result ≡ tells_test map.now.pairs test }
    ensures test { IfSome result (λ told. IsTestOf map.now.pairs test told) }
{
    let left = record_side(map, test.left)?;
    let right = record_side(map, test.right)?;
    Some(RecordTest {
        left,
        comparison: test.comparison,
        right,
    })
}

// The same side in the record of a trace; `None` where it does not tell that.
fn record_side(map: &FieldMap, side: TestSide) -> Option<RecordSide>
    ensures exact { is_some result ≡ tells_side map.now.pairs side }
    ensures side { IfSome result (λ told. IsSideOf map.now.pairs side told) }
{
    match side {
        TestSide::Term(term) => Some(RecordSide::Term(record_term(map, term)?)),
        TestSide::Decimal(amount) => Some(RecordSide::Decimal(amount)),
        TestSide::Fact(fact) => Some(RecordSide::Fact(fact)),
    }
}

// The same number in the record of a trace; `None` where it does not tell that.
fn record_term(map: &FieldMap, term: Term) -> Option<RecordTerm>
    ensures exact { is_some result ≡ tells_term map.now.pairs term }
    ensures term { IfSome result (λ told. IsTermOf map.now.pairs term told) }
{
    match term {
        Term::Number(number) => Some(RecordTerm::Number(number)),
        Term::At(place) => record_number(map, place),
    }
}

// The number of a record that stands at the place in its trace; `None` where none does.
fn record_number(map: &FieldMap, place: Place) -> Option<RecordTerm>
    ensures exact { is_some result ≡ tells_place map.now.pairs place }
    ensures term { IfSome result (λ told. IsTermOf map.now.pairs (terms.At place) told) }
{
    let geometry = map.geometry();
    if is_one_number(place, geometry.inline) {
        Some(RecordTerm::Inline)
    } else if is_one_number(place, geometry.crossline) {
        Some(RecordTerm::Crossline)
    } else if is_one_number(place, geometry.offset) {
        Some(RecordTerm::Offset)
    } else if is_one_number(place, SEQUENCE) {
        Some(RecordTerm::Sequence)
    } else {
        None
    }
}

// Whether the two are one place of a number of the main header that has a sign.
fn is_one_number(place: Place, other: Place) -> bool
    ensures { result ≡ is_one_number_of place other }
{
    place.kind.has_known_size()
        && 0 < place.byte
        && u32::from(place.byte) + u32::from(place.kind.size) < 242
        && place.extension == 0
        && other.extension == 0
        && place.byte == other.byte
        && place.kind.size == other.kind.size
        && place.kind.signed
        && other.kind.signed
}

// Whether the record meets all conditions; whether samples are floats comes first.
pub(crate) fn hold(floats: bool, record: &Record, tests: &[RecordTest]) -> bool
    ensures { result ≡ hold_all floats (facts_of record.now) tests.now }
{
    for test in tests {
        let left = value_of(floats, record, test.left);
        let right = value_of(floats, record, test.right);
        if !compares(test.comparison, left, right) {
            return false;
        }
    }
    true
}

// What the side says of the trace of the record.
fn value_of(floats: bool, record: &Record, side: RecordSide) -> SideValue
    ensures { result ≡ value_in floats (facts_of record.now) side }
{
    match side {
        RecordSide::Term(term) => SideValue::Whole(number_of(record, term)),
        RecordSide::Decimal(amount) => SideValue::Decimal(amount),
        RecordSide::Fact(fact) => fact_value(floats, record.amplitudes, record.number, fact),
    }
}

// The number in the record.
fn number_of(record: &Record, term: RecordTerm) -> i128
    ensures { result ≡ number_in (facts_of record.now) term }
{
    match term {
        RecordTerm::Number(number) => number,
        RecordTerm::Inline => i128::from(record.inline),
        RecordTerm::Crossline => i128::from(record.crossline),
        RecordTerm::Offset => i128::from(record.offset),
        RecordTerm::Sequence => i128::from(record.sequence),
    }
}
