// Edits of samples and of whole traces over small files that are made by hand: what no script can
// ask, and what they look at.
use crate::report_tests::on_survey;
use crate::tests::{is_answered, meets, on_file, patches, sample_file, saves, shows};
use bench_core::{Bench, Edit, Query, Refusal};
use frame_cut::Reading;
use std::alloc::Global;
use std::process::Abort;
use std::test::Fail;

fn put_no_values(rt: &impl Abort, alloc: Global, bench: &mut Bench, file: &[u8]) {
    assert!(rt; patches(bench, alloc, (1, 0), &[], None));
    assert!(rt; patches(bench, alloc, (1, 2), &[], None));
    let behind = Some(Refusal::NoSample(3, 2));
    assert!(rt; patches(bench, alloc, (1, 3), &[], behind));
    assert!(rt; saves(bench, alloc, file));
}

// A line of a script has a value at least.
#[test]
fn no_values_change_nothing(rt: HostRuntime) -> Result<(), Fail> {
    let alloc = rt.alloc();
    let file = sample_file(alloc)?;
    on_file(
        alloc,
        file.as_slice(),
        Reading::as_written(),
        (1 << 20, 5),
        &mut |bench: &mut Bench| put_no_values(&rt, alloc, bench, file.as_slice()),
    )
}

// Whether a blank trace and then a copy of it meet these refusals, or none.
fn meets_both(
    bench: &mut Bench,
    alloc: Global,
    blank: Option<Refusal>,
    copy: Option<Refusal>,
) -> bool {
    meets(bench, alloc, Edit::Blank(1), blank) && meets(bench, alloc, Edit::Copy(1, 1), copy)
}

// The same in the small file, which is loaded with room for so many bytes and traces.
fn put_within(
    rt: &impl Abort,
    alloc: Global,
    room: (u64, u32),
    blank: Option<Refusal>,
    copy: Option<Refusal>,
) -> Result<(), Fail> {
    let file = sample_file(alloc)?;
    let mut are_met = false;
    on_file(
        alloc,
        file.as_slice(),
        Reading::as_written(),
        room,
        &mut |bench: &mut Bench| are_met = meets_both(bench, alloc, blank, copy),
    )?;
    assert!(rt; are_met);
    Ok(())
}

// The program itself has a limit of bytes alone.
#[test]
fn keeps_within_the_limits(rt: HostRuntime) -> Result<(), Fail> {
    let alloc = rt.alloc();
    let (large, many) = (Some(Refusal::TooLarge), Some(Refusal::TooManyTraces));
    put_within(&rt, alloc, (4575, 9), large, large)?;
    put_within(&rt, alloc, (4575, 3), large, large)?;
    put_within(&rt, alloc, (4576, 3), many, many)?;
    put_within(&rt, alloc, (4820, 4), None, many)
}

fn count_looks(rt: &impl Abort, alloc: Global, bench: &mut Bench) {
    let looks = bench.volume().looks();
    assert!(rt; looks <= 3);
    assert!(rt; is_answered(bench, alloc, Query::Count));
    assert_eq!(rt; bench.volume().looks(), looks);
    assert!(rt; shows(bench, alloc, 2, 1, 4));
    let looks = bench.volume().looks();
    assert!(rt; meets(bench, alloc, Edit::Delete(1), None));
    assert_eq!(rt; bench.volume().looks(), looks);
}

#[test]
fn counts_its_looks_at_traces(rt: HostRuntime) -> Result<(), Fail> {
    let alloc = rt.alloc();
    on_survey(
        alloc,
        &mut |bench: &mut Bench| count_looks(&rt, alloc, bench),
    )
}
