// Traces put in the order of numbers in their headers, over a small survey that is made by hand:
// what a sort looks at, and which slices it forgets.
use crate::report_tests::on_survey;
use crate::tests::{is_answered, meets, signed};
use bench_core::{Bench, Edit, Field, Items, Query, Refusal, Text};
use std::alloc::{AllocError, Global};
use std::process::Abort;
use std::test::Fail;

// All traces in the order of the falling numbers of a field.
fn by(alloc: Global, field: Field) -> Result<Edit, AllocError> {
    let fields = Items::new(vec![in alloc; field]?);
    let falling = Items::new(vec![in alloc; true]?);
    Ok(Edit::Sort {
        first_trace: 1,
        last_trace: 3,
        fields,
        falling,
    })
}

// Whether that order meets this refusal, or none.
fn sorts(bench: &mut Bench, alloc: Global, field: Field, expected: Option<Refusal>) -> bool {
    match by(alloc, field) {
        Ok(edit) => meets(bench, alloc, edit, expected),
        Err(_) => false,
    }
}

// Whether the order of a name that is not there is refused for it.
fn refuses_name(bench: &mut Bench, alloc: Global) -> bool {
    match String::from_str(alloc, "-") {
        Ok(name) => {
            let field = Field::Name(Text::new(name));
            sorts(bench, alloc, field, Some(Refusal::NoField))
        }
        Err(_) => false,
    }
}

// Whether the traces are put in the order of falling crosslines, with a look at each at most.
fn sorts_falling(bench: &mut Bench, alloc: Global) -> bool {
    let before = bench.volume().looks();
    let is_done = sorts(bench, alloc, signed(193, 4), None);
    is_done && bench.volume().looks().checked_sub(before) <= Some(3)
}

fn refuse_and_sort(rt: &impl Abort, alloc: Global, bench: &mut Bench) {
    assert!(rt; is_answered(bench, alloc, Query::Slice(0)));
    let before = bench.volume().looks();
    assert!(rt; refuses_name(bench, alloc));
    assert_eq!(rt; bench.volume().looks(), before);
    assert!(rt; bench.cached(0));
    assert!(rt; sorts_falling(bench, alloc));
    assert!(rt; !bench.cached(0));
}

// A refused sort keeps the slices, and looks at no trace.
#[test]
fn traces_are_put_in_order(rt: HostRuntime) -> Result<(), Fail> {
    let alloc = rt.alloc();
    on_survey(
        alloc,
        &mut |bench: &mut Bench| refuse_and_sort(&rt, alloc, bench),
    )
}
