// What reports are lent behind edits of a small survey that is made by hand.
use crate::tests::{meets, on_file, put_bytes, sample_file, signed};
use bench_core::{Answer, AskFault, Bench, Edit, Query};
use frame_cut::Reading;
use room::Room;
use std::alloc::Global;
use std::process::Abort;
use std::test::Fail;

// Has the function try the small file: its traces on crosslines 21, 22 and 23, and with
// samples 1 and -2, 3 and 4, -5 and 6.
pub(crate) fn on_survey(alloc: Global, ask: &mut dyn FnMut(&mut Bench)) -> Result<(), Fail>
    requires { IsAlwaysCallable ask.now }
{
    let mut file = sample_file(alloc)?;
    let crosslines = [(3795, 21), (4039, 22), (4283, 23)];
    let samples = [
        (3841, 1),
        (3842, 255),
        (3843, 254),
        (4085, 3),
        (4087, 4),
        (4328, 255),
        (4329, 251),
        (4331, 6),
    ];
    put_bytes(file.as_mut_slice(), &crosslines);
    put_bytes(file.as_mut_slice(), &samples);
    on_file(
        alloc,
        file.as_slice(),
        Reading::as_written(),
        (1 << 20, 5),
        ask,
    )
}

// Whether so many traces lie in a cell answers.
fn is_fold(asked: &Result<Answer, AskFault>, expected: u64) -> bool {
    match asked {
        Ok(Answer::Fold(number)) => *number == expected,
        _ => false,
    }
}

// Whether so many traces lie in the cell, by the query and by the grid that is lent.
fn folds(bench: &mut Bench, alloc: Global, cell: (i128, i128), expected: u64) -> bool {
    let lent = bench.volume().grid().fold(cell.0, cell.1);
    let asked = bench.ask(&mut Room::new(alloc), &Query::Fold(cell.0, cell.1));
    lent == expected && is_fold(&asked, expected)
}

fn edit_with_reports(rt: &impl Abort, alloc: Global, bench: &mut Bench) {
    assert!(rt; meets(bench, alloc, Edit::Set(2, signed(189, 4), 11), None));
    assert!(rt; folds(bench, alloc, (11, 22), 1));
    assert!(rt; folds(bench, alloc, (10, 22), 0));
    assert_eq!(rt; bench.volume().totals().number(), 6);
    assert!(rt; meets(bench, alloc, Edit::Copy(2, 1), None));
    assert!(rt; folds(bench, alloc, (11, 22), 2));
    assert!(rt; meets(bench, alloc, Edit::Blank(5), None));
    assert!(rt; folds(bench, alloc, (0, 0), 1));
    assert!(rt; folds(bench, alloc, (1 << 40, -1), 0));
    assert_eq!(rt; bench.volume().totals().number(), 10);
}

fn undo_with_reports(rt: &impl Abort, alloc: Global, bench: &mut Bench) {
    let looks = bench.volume().looks();
    assert!(rt; meets(bench, alloc, Edit::Delete(5), None));
    assert!(rt; meets(bench, alloc, Edit::Delete(4), None));
    assert!(rt; meets(bench, alloc, Edit::Delete(1), None));
    assert!(rt; meets(bench, alloc, Edit::Move(1, 2), None));
    assert_eq!(rt; bench.volume().totals().number(), 4);
    assert_eq!(rt; bench.volume().looks(), looks);
}

fn edit_and_undo(rt: &impl Abort, alloc: Global, bench: &mut Bench) {
    edit_with_reports(rt, alloc, bench);
    undo_with_reports(rt, alloc, bench);
}

#[test]
fn reports_follow_edits(rt: HostRuntime) -> Result<(), Fail> {
    let alloc = rt.alloc();
    on_survey(
        alloc,
        &mut |bench: &mut Bench| edit_and_undo(&rt, alloc, bench),
    )
}
