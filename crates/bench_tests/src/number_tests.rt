// Another number of samples of a trace, and a field of many traces counted up, over small files
// that are made by hand: what they look at, and which slices they forget.
use crate::report_tests::on_survey;
use crate::tests::{has, is_answered, meets, on_file, put_bytes, renumber, sample_file, signed};
use bench_core::{Bench, Edit, Query, Refusal};
use frame_cut::Reading;
use std::alloc::Global;
use std::process::Abort;
use std::test::Fail;

fn refuse_ranges(rt: &impl Abort, alloc: Global, bench: &mut Bench) {
    let past = renumber(2, 4, signed(189, 4), 1, 1);
    assert!(rt; meets(bench, alloc, past, Some(Refusal::NoTrace(4, 3))));
    let turned = renumber(2, 1, signed(189, 4), 1, 1);
    assert!(rt; meets(bench, alloc, turned, Some(Refusal::NoTrace(1, 3))));
}

fn count_up(rt: &impl Abort, alloc: Global, bench: &mut Bench) {
    assert!(rt; is_answered(bench, alloc, Query::Slice(0)));
    let before = bench.volume().looks();
    refuse_ranges(rt, alloc, bench);
    let sequence = renumber(1, 3, signed(1, 4), 7, -2);
    assert!(rt; meets(bench, alloc, sequence, None));
    assert_eq!(rt; bench.volume().looks(), before);
    assert!(rt; bench.cached(0));
    assert!(rt; has(bench, alloc, 3, signed(1, 4), 3));
    let inlines = renumber(1, 3, signed(189, 4), 10, 1);
    assert!(rt; meets(bench, alloc, inlines, None));
    assert!(rt; !bench.cached(0));
    assert!(rt; has(bench, alloc, 3, signed(189, 4), 12));
}

// A field counted up forgets the slices where a trace has another inline or crossline, and only
// there; for a number that no record keeps, and for a range that is none, no trace is looked at.
#[test]
fn a_field_is_counted_up(rt: HostRuntime) -> Result<(), Fail> {
    let alloc = rt.alloc();
    on_survey(alloc, &mut |bench: &mut Bench| count_up(&rt, alloc, bench))
}

// How many looks a set of a signed number of trace 2 takes, of so many bytes from this one on.
fn looks_for_set(bench: &mut Bench, alloc: Global, byte: u16, size: u8) -> Option<u64> {
    let before = bench.volume().looks();
    if !meets(bench, alloc, Edit::Set(2, signed(byte, size), 7), None) {
        return None;
    }
    bench.volume().looks().checked_sub(before)
}

fn set_numbers(rt: &impl Abort, alloc: Global, bench: &mut Bench) {
    for byte in &[5, 9, 37, 181, 185, 189, 193] {
        assert!(rt; looks_for_set(bench, alloc, *byte, 4) == Some(0));
        assert!(rt; has(bench, alloc, 2, signed(*byte, 4), 7));
    }
}

fn set_others(rt: &impl Abort, alloc: Global, bench: &mut Bench) {
    for byte in &[71, 89, 117, 189] {
        assert!(rt; looks_for_set(bench, alloc, *byte, 2) == Some(1));
    }
    assert!(rt; has(bench, alloc, 2, signed(189, 4), 458759));
}

fn set_all(rt: &impl Abort, alloc: Global, bench: &mut Bench) {
    set_numbers(rt, alloc, bench);
    set_others(rt, alloc, bench);
}

// The sequence number, offset, x, y, inline and crossline, and bytes 9-12, which no record keeps,
// are set without a look at their trace; the coordinate scalar, the units, the interval and half an
// inline with one.
#[test]
fn what_the_records_tell_is_set_without_a_look(rt: HostRuntime) -> Result<(), Fail> {
    let alloc = rt.alloc();
    on_survey(alloc, &mut |bench: &mut Bench| set_all(&rt, alloc, bench))
}

// Whether trace 2 gets three samples in two looks at most.
fn resizes(bench: &mut Bench, alloc: Global) -> bool {
    let before = bench.volume().looks();
    let is_done = meets(bench, alloc, Edit::Resize(2, 3), None);
    is_done && bench.volume().looks().checked_sub(before) <= Some(2)
}

fn resize_one(rt: &impl Abort, alloc: Global, bench: &mut Bench) {
    assert!(rt; is_answered(bench, alloc, Query::Slice(0)));
    assert!(rt; resizes(bench, alloc));
    assert!(rt; !bench.cached(0));
}

// A trace of a file whose traces have their own lengths.
#[test]
fn a_trace_has_another_number_of_samples(rt: HostRuntime) -> Result<(), Fail> {
    let alloc = rt.alloc();
    let mut file = sample_file(alloc)?;
    put_bytes(file.as_mut_slice(), &[(3503, 0), (4087, 9)]);
    on_file(
        alloc,
        file.as_slice(),
        Reading::as_written(),
        (4334, 3),
        &mut |bench: &mut Bench| resize_one(&rt, alloc, bench),
    )
}
