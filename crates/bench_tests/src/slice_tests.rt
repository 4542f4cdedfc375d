// Slices that are kept, over the small survey of three traces: which are, and what an ask looks at.
use crate::report_tests::on_survey;
use crate::tests::{is_answered, meets, patches, signed};
use bench_core::{Answer, AskFault, Bench, Edit, Field, Query, Refusal, Text};
use field_map::Place;
use num_order::Kind;
use room::Room;
use std::alloc::{AllocError, Global};
use std::process::Abort;
use std::test::Fail;

// How many rows the answer has.
fn rows(asked: &Result<Answer, AskFault>) -> Option<usize> {
    match asked {
        Ok(Answer::Slice(slice)) => Some(slice.as_slice().len()),
        _ => None,
    }
}

// How many looks the answer to slice k takes, where it has so many rows.
fn looks_for(bench: &mut Bench, alloc: Global, k: u32, expected: usize) -> Option<u64> {
    let before = bench.volume().looks();
    let found = rows(&bench.ask(&mut Room::new(alloc), &Query::Slice(k)));
    let looks = bench.volume().looks().checked_sub(before);
    if found == Some(expected) { looks } else { None }
}

// Whether exactly these of the slices 0 to 8 are kept.
fn keeps(bench: &Bench, expected: [bool; 9]) -> bool {
    for k in 0..9u32 {
        if bench.cached(k) != expected[k as usize] {
            return false;
        }
    }
    true
}

// Asks slices 0 to 7, of which two have rows.
fn asks_eight(rt: &impl Abort, alloc: Global, bench: &mut Bench) {
    for k in 0..8u32 {
        let rows = if k < 2 { 3 } else { 0 };
        assert!(rt; looks_for(bench, alloc, k, rows) == Some(3));
    }
}

// All that may be kept are, without this one.
fn all_but(k: usize) -> [bool; 9] {
    let mut kept = [true; 9];
    if k < 9 {
        kept[k] = false;
    }
    kept
}

fn asks_nine(rt: &impl Abort, alloc: Global, bench: &mut Bench) {
    asks_eight(rt, alloc, bench);
    assert!(rt; keeps(bench, all_but(8)));
    assert!(rt; looks_for(bench, alloc, 0, 3) == Some(0));
    assert!(rt; looks_for(bench, alloc, 8, 0) == Some(3));
    assert!(rt; keeps(bench, all_but(1)));
}

// The last eight slices are kept, the one that was asked again among them.
#[test]
fn eight_slices_are_kept(rt: HostRuntime) -> Result<(), Fail> {
    let alloc = rt.alloc();
    on_survey(alloc, &mut |bench: &mut Bench| asks_nine(&rt, alloc, bench))
}

// Whether slices 0 to 2 are answered.
fn asks_three(bench: &mut Bench, alloc: Global) -> bool {
    is_answered(bench, alloc, Query::Slice(0))
        && is_answered(bench, alloc, Query::Slice(1))
        && is_answered(bench, alloc, Query::Slice(2))
}

// Whether slices 1 and 2 alone are kept.
fn keeps_two(bench: &Bench) -> bool {
    keeps(
        bench,
        [false, true, true, false, false, false, false, false, false],
    )
}

fn edits_around(rt: &impl Abort, alloc: Global, bench: &mut Bench) {
    assert!(rt; asks_three(bench, alloc));
    assert!(rt; patches(bench, alloc, (1, 0), &[9], None));
    assert!(rt; keeps_two(bench));
    assert!(rt; meets(bench, alloc, Edit::Set(1, signed(193, 4), 21), None));
    assert!(rt; meets(bench, alloc, Edit::Set(1, signed(5, 4), 9), None));
    let behind = Some(Refusal::NoSample(2, 2));
    assert!(rt; patches(bench, alloc, (1, 2), &[1], behind));
    assert!(rt; keeps_two(bench));
    assert!(rt; looks_for(bench, alloc, 1, 3) == Some(0));
    assert!(rt; looks_for(bench, alloc, 0, 3) == Some(3));
}

// A patch forgets the slices of its samples alone; a set that leaves inline and crossline, and a
// refused edit, forget none.
#[test]
fn kept_slices_stay_after_edits_elsewhere(rt: HostRuntime) -> Result<(), Fail> {
    let alloc = rt.alloc();
    on_survey(
        alloc,
        &mut |bench: &mut Bench| edits_around(&rt, alloc, bench),
    )
}

// Offset bound to bytes 1 to 4.
fn bound_offset(alloc: Global) -> Result<Edit, AllocError> {
    let offset = Place {
        extension: 0,
        byte: 1,
        kind: Kind {
            size: 4,
            signed: true,
        },
    };
    let name = Text::new(String::from_str(alloc, "offset")?);
    Ok(Edit::Map(name, Field::Place(offset)))
}

// Whether slice 1 is kept before the edit and not after it, which takes three looks at most.
fn forgets(bench: &mut Bench, alloc: Global, edit: Edit) -> bool {
    let is_answered = is_answered(bench, alloc, Query::Slice(1));
    let is_kept = bench.cached(1);
    let before = bench.volume().looks();
    let is_done = meets(bench, alloc, edit, None);
    let is_cheap = bench.volume().looks().checked_sub(before) <= Some(3);
    is_answered && is_kept && is_done && is_cheap && !bench.cached(1)
}

fn forgets_for_a_name(bench: &mut Bench, alloc: Global) -> bool {
    match bound_offset(alloc) {
        Ok(edit) => forgets(bench, alloc, edit),
        Err(_) => false,
    }
}

fn edits_of_all(rt: &impl Abort, alloc: Global, bench: &mut Bench) {
    assert!(rt; forgets(bench, alloc, Edit::Set(2, signed(189, 4), 11)));
    assert!(rt; forgets_for_a_name(bench, alloc));
    assert!(rt; forgets(bench, alloc, Edit::Move(1, 3)));
    assert!(rt; forgets(bench, alloc, Edit::Copy(2, 1)));
    assert!(rt; forgets(bench, alloc, Edit::Delete(1)));
    assert!(rt; forgets(bench, alloc, Edit::Blank(4)));
}

// Edits that may change each slice forget all.
#[test]
fn edits_of_cells_and_traces_forget_all(rt: HostRuntime) -> Result<(), Fail> {
    let alloc = rt.alloc();
    on_survey(
        alloc,
        &mut |bench: &mut Bench| edits_of_all(&rt, alloc, bench),
    )
}
