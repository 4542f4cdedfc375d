// A field of many traces computed from numbers and other fields, over a small survey that is made
// by hand: three traces of inline 10 and crosslines 21 to 23.
use crate::report_tests::on_survey;
use crate::tests::{has, is_answered, meets, signed};
use bench_core::{Bench, Edit, Field, Items, Operand, Operator, Query, Refusal, Text};
use std::alloc::{AllocError, Global};
use std::process::Abort;
use std::test::Fail;

fn crossline() -> Operand {
    Operand::Field(signed(193, 4))
}

// The steps on numbers.
fn on_numbers(
    alloc: Global,
    steps: &[(Operator, i128)],
) -> Result<Items<(Operator, Operand)>, AllocError> {
    let mut list = Vec::new(alloc);
    for step in steps {
        let (operator, number) = *step;
        list.push((operator, Operand::Number(number)))?;
    }
    Ok(Items::new(list))
}

// Whether the field of traces 1 to b is computed from the crossline by these steps.
fn computes(
    bench: &mut Bench,
    alloc: Global,
    last_trace: u32,
    field: Field,
    steps: &[(Operator, i128)],
) -> bool {
    let Ok(steps) = on_numbers(alloc, steps) else {
        return false;
    };
    let source = crossline();
    let edit = Edit::Compute {
        first_trace: 1,
        last_trace,
        field,
        source,
        steps,
    };
    meets(bench, alloc, edit, None)
}

// Whether the sequence numbers are computed, with two looks at each trace at most.
fn computes_sequence(bench: &mut Bench, alloc: Global) -> bool {
    let steps = [
        (Operator::Over, -2),
        (Operator::Times, 10),
        (Operator::Modulo, 7),
    ];
    let before = bench.volume().looks();
    let is_done = computes(bench, alloc, 3, signed(1, 4), &steps);
    is_done && bench.volume().looks().checked_sub(before) <= Some(6)
}

fn compute_sequence(rt: &impl Abort, alloc: Global, bench: &mut Bench) {
    assert!(rt; is_answered(bench, alloc, Query::Slice(0)));
    assert!(rt; computes_sequence(bench, alloc));
    assert!(rt; bench.cached(0));
    // 21 over -2 is -11, 22 over -2 is -11, and 23 over -2 is -12; -110 modulo 7 is 2.
    assert!(rt; has(bench, alloc, 1, signed(1, 4), 2));
    assert!(rt; has(bench, alloc, 2, signed(1, 4), 2));
    assert!(rt; has(bench, alloc, 3, signed(1, 4), 6));
    let steps = [(Operator::Plus, 100)];
    assert!(rt; computes(bench, alloc, 2, signed(193, 4), &steps));
    assert!(rt; !bench.cached(0));
    assert!(rt; has(bench, alloc, 2, signed(193, 4), 122));
    assert!(rt; has(bench, alloc, 3, signed(193, 4), 23));
}

// A field that is computed forgets the slices where a trace has another inline or crossline, and
// only there.
#[test]
fn a_field_is_computed(rt: HostRuntime) -> Result<(), Fail> {
    let alloc = rt.alloc();
    on_survey(
        alloc,
        &mut |bench: &mut Bench| compute_sequence(&rt, alloc, bench),
    )
}

// The quotient by the field of a name that is not there.
fn over_nothing(alloc: Global) -> Result<Items<(Operator, Operand)>, AllocError> {
    let name = Text::new(String::from_str(alloc, "nothing")?);
    let steps = vec![in alloc; (Operator::Over, Operand::Field(Field::Name(name)))]?;
    Ok(Items::new(steps))
}

// Whether the sequence numbers from a name that is not there are refused for it.
fn refuses_name(bench: &mut Bench, alloc: Global) -> bool {
    let Ok(steps) = over_nothing(alloc) else {
        return false;
    };
    let edit = Edit::Compute {
        first_trace: 1,
        last_trace: 3,
        field: signed(1, 4),
        source: crossline(),
        steps,
    };
    meets(bench, alloc, edit, Some(Refusal::NoField))
}

fn refuse_names(rt: &impl Abort, alloc: Global, bench: &mut Bench) {
    let before = bench.volume().looks();
    assert!(rt; refuses_name(bench, alloc));
    assert_eq!(rt; bench.volume().looks(), before);
}

// A name that is not there is told before any trace is looked at.
#[test]
fn a_name_that_is_not_there_refuses_a_computation(rt: HostRuntime) -> Result<(), Fail> {
    let alloc = rt.alloc();
    on_survey(
        alloc,
        &mut |bench: &mut Bench| refuse_names(&rt, alloc, bench),
    )
}
