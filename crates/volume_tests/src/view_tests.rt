// Traces that are made by hand. A test makes the bytes and the runs and lends the view of them: the
// check of a function that owns runs takes the longer the more it does.
ghost use Rattle.std.specs.Prelude.{◌≡◌, ◌+◌, ◌<◌, ◌≤◌, length, IfOk};
ghost use Rattle.trace_view.specs.Runs.{Fit};
ghost use Rattle.trace_view.specs.Shown.{bytes_of};

use crate::heads::{counted_head, plain_head, run};
use crate::views::view;
use field_map::Place;
use num_order::Kind;
use room::Room;
use std::alloc::{AllocError, Global};
use std::process::Abort;
use std::test::Fail;
use trace_view::{OutOfMemory, Pieces, Run, TraceView, put_run};

fn place(extension: u16, byte: u16, size: u8, signed: bool) -> Place {
    Place {
        extension,
        byte,
        kind: Kind { size, signed },
    }
}

// How many pieces there are.
fn count(pieces: Pieces<'_>) -> u32 {
    let mut count: u32 = 0;
    for _piece in pieces {
        count = count.saturating_add(1);
    }
    count
}

fn expect_runs(rt: &impl Abort, view: &TraceView<'_>) {
    assert_eq!(rt; view.value(place(0, 189, 4, true)), Some(327_680));
    assert_eq!(rt; view.value(place(0, 189, 2, true)), Some(5));
    let mut samples = view.samples();
    assert_eq!(rt; samples.next(), Some(1));
    assert_eq!(rt; samples.next(), Some(32_766));
    assert_eq!(rt; samples.next(), None);
}

fn expect_pieces(rt: &impl Abort, view: &TraceView<'_>) {
    assert_eq!(rt; count(view.pieces()), 6);
    assert_eq!(rt; view.main().length(), 240);
    assert_eq!(rt; count(view.main().pieces()), 4);
    assert!(rt; view.plain_samples().is_none());
    assert_eq!(rt; view.length(), 244);
    assert!(rt; view.plain(190, 192).is_none());
}

// Bytes of the inline number in two runs, and the first byte of a sample.
fn three_runs(alloc: Global) -> Result<[Run; 3], AllocError>
    ensures { IfOk result (λ runs. Fit runs 244) }
{
    let upper = run(alloc, 188, &[0x00, 0x05])?;
    let lower = run(alloc, 190, &[0x00, 0x00, 0x00])?;
    let sample = run(alloc, 242, &[0x7F])?;
    Ok([upper, lower, sample])
}

fn expect_across_runs(rt: &impl Abort, runs: &[Run])
    requires { Fit runs.now 244 }
{
    let head = plain_head();
    let mut base = [0; 244];
    base[241] = 1;
    base[242] = 0xFF;
    base[243] = 0xFE;
    let view = view(rt, &head, &base, runs);
    expect_runs(rt, &view);
    expect_pieces(rt, &view);
}

// An inline number over two runs, and a sample of which a run has the first byte.
#[test]
fn reads_across_runs(rt: HostRuntime) -> Result<(), Fail> {
    let runs = three_runs(rt.alloc())?;
    expect_across_runs(&rt, &runs);
    Ok(())
}

fn expect_the_second_extension(rt: &impl Abort, view: &TraceView<'_>) {
    assert!(rt; view.extension(0).is_none());
    assert!(rt; view.extension(3).is_none());
    let extension = view.extension(2).expect(&rt, "the trace has two");
    assert_eq!(rt; extension.length(), 240);
    let mut pieces = extension.pieces();
    assert_eq!(rt; pieces.next(), Some(&[0xFF, 0xFE][..]));
}

fn expect_bytes_behind(rt: &impl Abort, view: &TraceView<'_>)
    requires { length (bytes_of view.now) ≡ 724 }
{
    assert_eq!(rt; view.plain_samples(), Some(&[0, 1, 0, 2][..]));
    assert_eq!(rt; view.sample(1), Some(2));
    let mut bytes = [0; 3];
    view.read(479, &mut bytes);
    assert_eq!(rt; bytes, [0, 0xFF, 0xFE]);
}

fn expect_lengths_under_puts(rt: &impl Abort, view: &TraceView<'_>)
    requires { length (bytes_of view.now) ≡ 724 }
{
    assert_eq!(rt; view.changed_length(114, &[0, 3]), Some(726));
    assert_eq!(rt; view.changed_length(396, &[0, 3]), Some(964));
    assert_eq!(rt; view.changed_length(396, &[0, 4]), None);
    assert_eq!(rt; view.changed_length(720, &[9]), Some(724));
}

fn expect_two_extensions(rt: &impl Abort, runs: &[Run])
    requires { Fit runs.now 724 }
{
    let head = counted_head();
    let mut base = [0; 724];
    base[115] = 2;
    base[397] = 2;
    base[721] = 1;
    base[723] = 2;
    let view = view(rt, &head, &base, runs);
    expect_the_second_extension(rt, &view);
    expect_bytes_behind(rt, &view);
    expect_lengths_under_puts(rt, &view);
}

// A trace with two of at most three header extensions, and two samples behind them.
#[test]
fn reads_extensions(rt: HostRuntime) -> Result<(), Fail> {
    let runs = [run(rt.alloc(), 480, &[0xFF, 0xFE])?];
    expect_two_extensions(&rt, &runs);
    Ok(())
}

fn expect_put(rt: &impl Abort, view: &TraceView<'_>) {
    assert_eq!(rt; view.value(place(0, 189, 4, true)), Some(327_680));
    assert_eq!(rt; view.value(place(0, 193, 1, true)), Some(10));
    assert_eq!(rt; view.value(place(0, 1, 4, true)), Some(16_777_216));
    assert_eq!(rt; view.sample(0), Some(1));
}

// The runs with one put more.
fn put_over(alloc: Global, runs: &[Run], at: u64, bytes: &[u8]) -> Result<Vec<Run>, OutOfMemory>
    requires fit { Fit runs.now 244 }
    requires some { 0 < length bytes.now }
    requires inside { at + length bytes.now ≤ 244 }
    ensures { IfOk result (λ list. Fit list.items 244) }
{
    put_run(&mut Room::new(alloc), 244, runs, at, bytes)
}

// Two puts beside one another.
fn joined_puts(alloc: Global) -> Result<Vec<Run>, OutOfMemory>
    ensures { IfOk result (λ list. Fit list.items 244) }
{
    let behind = put_over(alloc, &[], 190, &[0x00, 0x00, 0x0A])?;
    put_over(alloc, &behind, 188, &[0x00, 0x05])
}

fn expect_a_run_of_samples(rt: &impl Abort, alloc: Global, runs: &[Run]) -> Result<(), Fail>
    requires { Fit runs.now 244 }
{
    assert_eq!(rt; runs.len(), 1);
    let runs = put_over(alloc, runs, 240, &[0x00, 0x01])?;
    expect_a_run_in_front(rt, alloc, &runs)
}

fn expect_a_run_in_front(rt: &impl Abort, alloc: Global, runs: &[Run]) -> Result<(), Fail>
    requires { Fit runs.now 244 }
{
    assert_eq!(rt; runs.len(), 2);
    let runs = put_over(alloc, runs, 0, &[0x01])?;
    expect_three_runs(rt, alloc, &runs)
}

fn expect_three_runs(rt: &impl Abort, alloc: Global, runs: &[Run]) -> Result<(), Fail>
    requires { Fit runs.now 244 }
{
    assert_eq!(rt; runs.len(), 3);
    expect_put(rt, &view(rt, &plain_head(), &[0; 244], runs));
    let runs = put_over(alloc, runs, 191, &[0xFF; 50])?;
    assert_eq!(rt; runs.len(), 2);
    Ok(())
}

// Puts beside and over one another make one run, with the last bytes on top.
#[test]
fn puts_runs(rt: HostRuntime) -> Result<(), Fail> {
    let alloc = rt.alloc();
    let runs = joined_puts(alloc)?;
    expect_a_run_of_samples(&rt, alloc, &runs)
}
