// What queries about the headers of many traces look at, over the small survey.
use crate::report_tests::on_survey;
use crate::tests::{looks_for, signed};
use bench_core::{Bench, Items, Query};
use std::alloc::Global;
use std::process::Abort;
use std::test::Fail;

// How many looks a table of two fields of traces 2 and 3 takes.
fn looks_for_table(bench: &mut Bench, alloc: Global) -> Option<u64> {
    let Ok(fields) = vec![in alloc; signed(193, 4), signed(193, 2)] else {
        return None;
    };
    looks_for(bench, alloc, Query::Table(2, 3, Items::new(fields)))
}

fn ask_many(rt: &impl Abort, alloc: Global, bench: &mut Bench) {
    assert!(rt; looks_for_table(bench, alloc) == Some(2));
    let some = Query::Find(1, 3, signed(193, 4), 22, 1 << 100);
    assert!(rt; looks_for(bench, alloc, some) == Some(3));
    let none = Query::Find(1, 3, signed(193, 4), 23, 22);
    assert!(rt; looks_for(bench, alloc, none) == Some(3));
}

// Each trace is looked at once.
#[test]
fn asks_many_traces(rt: HostRuntime) -> Result<(), Fail> {
    let alloc = rt.alloc();
    on_survey(alloc, &mut |bench: &mut Bench| ask_many(&rt, alloc, bench))
}
