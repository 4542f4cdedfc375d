// Loads, edits and saves over a small file: its payloads, its looks, and edits that are prepared.
// One function owns the overlay of each test and lends it out: the check of a function that owns an
// overlay takes the longer the more it does, and that of a borrower stays short. What it is lent to
// is a `dyn`: a type parameter would have it checked anew for each test.
ghost use Rattle.std.specs.Prelude.{◌≡◌, ◌+◌, [], length, IfOk, OnOk};
ghost use Rattle.frame_cut.specs.Traces.{count_of};

use crate::files::two_traces;
use crate::puts::{is_trace, may_put, put};
use crate::volumes::volume_of;
use device_io::{Sink, Source, StepReader};
use edit_overlay::{Overlay, SaveFault};
use frame_cut::{Limits, Reading};
use room::Room;
use std::alloc::{AllocError, Global};
use std::process::Abort;
use std::test::Fail;
use trace_view::TraceView;
use volume_loading::Loading;

// A trace of so many samples as its header says (bytes 115-116), each of them the same.
fn trace(alloc: Global, samples: u8, sample: u8) -> Result<Vec<u8>, Fail> {
    let mut trace = vec![in alloc; 0u8; 240]?;
    trace.as_mut_slice()[115] = samples;
    trace.resize(240 + 2 * samples as usize, sample)?;
    Ok(trace)
}

// The bytes from..to, where there are as many.
fn part(bytes: &[u8], from: usize, to: usize) -> &[u8] {
    if from <= to && to <= bytes.len() {
        &bytes[from..to]
    } else {
        &[]
    }
}

fn limits() -> Result<Limits, Fail> {
    Ok(Limits::new(4088, 2).ok_or("limits")?)
}

// The payloads of the two traces are their first positions.
fn volume(alloc: Global) -> Result<Overlay<u32>, Fail> {
    let file = two_traces(alloc)?;
    volume_of(alloc, file, limits()?, &[1, 2])
}

// What the function answers of the small file and of an overlay over it.
fn on_small(
    alloc: Global,
    ask: &mut dyn FnMut(&[u8], &mut Overlay<u32>) -> Result<(), Fail>,
) -> Result<(), Fail>
    requires { IsAlwaysCallable ask.now }
{
    let file = two_traces(alloc)?;
    on_file(alloc, file.as_slice(), ask)
}

fn on_file(
    alloc: Global,
    file: &[u8],
    ask: &mut dyn FnMut(&[u8], &mut Overlay<u32>) -> Result<(), Fail>,
) -> Result<(), Fail>
    requires { IsAlwaysCallable ask.now }
{
    let mut volume = volume(alloc)?;
    let asked = ask(file, &mut volume);
    volume.close();
    asked
}

// These parts, one behind the other.
fn joined(alloc: Global, parts: &[&[u8]]) -> Result<Vec<u8>, AllocError> {
    let mut bytes = Vec::new(alloc);
    for part in parts {
        bytes.extend_from_slice(part)?;
    }
    Ok(bytes)
}

// What a save writes.
fn saved(alloc: Global, volume: &mut Overlay<u32>) -> Result<Vec<u8>, SaveFault> {
    let mut writer = Sink::new(Vec::new(alloc));
    volume.write_to(&mut writer)?;
    Ok(writer.into_inner())
}

fn expect_file(
    rt: &impl Abort,
    alloc: Global,
    volume: &mut Overlay<u32>,
    expected: &[u8],
) -> Result<(), Fail> {
    let file = saved(alloc, volume)?;
    assert_eq!(rt; file.len(), volume.length() as usize);
    assert!(rt; file.as_slice() == expected);
    Ok(())
}

// Asserts that a save writes these parts, one behind the other.
fn expect_saved(
    rt: &impl Abort,
    alloc: Global,
    volume: &mut Overlay<u32>,
    parts: &[&[u8]],
) -> Result<(), Fail> {
    let expected = joined(alloc, parts)?;
    expect_file(rt, alloc, volume, expected.as_slice())
}

// Asserts that trace p has these bytes, at most 300.
fn expect_trace(rt: &impl Abort, volume: &mut Overlay<u32>, p: u32, expected: &[u8]) {
    assert!(rt; shows(volume, p, expected));
}

fn shows(volume: &mut Overlay<u32>, p: u32, expected: &[u8]) -> bool {
    match volume.look(p) {
        Ok(Some(view)) => has_bytes(&view, expected),
        _ => false,
    }
}

fn has_bytes(view: &TraceView<'_>, expected: &[u8]) -> bool {
    let mut room = [0u8; 300];
    if expected.len() > room.len() || view.length() != expected.len() as u64 {
        return false;
    }
    let shown = &mut room[..expected.len()];
    view.read(0, shown);
    *shown == *expected
}

// Asserts that these are the bytes of the traces, at most 300 each, and that none is behind them.
fn expect_traces(
    rt: &impl Abort,
    volume: &mut Overlay<u32>,
    expected: &[&[u8]],
) -> Result<(), Fail> {
    let mut p: u32 = 1;
    for bytes in expected {
        expect_trace(rt, volume, p, bytes);
        p = p.saturating_add(1);
    }
    assert!(rt; volume.look(p)?.is_none());
    Ok(())
}

// Asserts that the traces have these payloads, in this order.
fn expect_payloads(rt: &impl Abort, volume: &Overlay<u32>, expected: &[u32]) {
    let column = volume.payloads();
    let mut payloads = column.iter();
    for payload in expected {
        assert_eq!(rt; payloads.next(), Some(*payload));
    }
    assert_eq!(rt; payloads.next(), None);
}

fn prepare(
    alloc: Global,
    volume: &mut Overlay<u32>,
    p: u32,
    at: u64,
    bytes: &[u8],
) -> Result<(), Fail> {
    if !may_put(volume, p, at, bytes) {
        return Err(Fail::from("no place for the bytes"));
    }
    volume.prepare_put(&mut Room::new(alloc), p, at, bytes)?;
    Ok(())
}

// Prepares two of the bytes over each of the first two traces.
fn prepare_over_two(
    alloc: Global,
    volume: &mut Overlay<u32>,
    at: u64,
    bytes: &[u8; 4],
) -> Result<(), Fail> {
    if !may_put(volume, 1, at, &bytes[..2]) {
        return Err(Fail::from("no place for the bytes"));
    }
    if !may_put(volume, 2, at, &bytes[2..]) {
        return Err(Fail::from("no place for the bytes"));
    }
    volume.prepare_put_each(&mut Room::new(alloc), 1, at, 2, bytes)?;
    Ok(())
}

// Whether trace p, of 244 bytes, ends so as it would be.
fn ends_ahead(volume: &mut Overlay<u32>, p: u32, end: &[u8]) -> bool {
    let Ok(Some(view)) = volume.look_prepared(p) else {
        return false;
    };
    if view.length() != 244 {
        return false;
    }
    let mut room = [0u8; 244];
    view.read(0, &mut room);
    *part(&room, 240, 244) == *end
}

fn prepare_move(alloc: Global, volume: &mut Overlay<u32>, a: u32, b: u32) -> Result<(), Fail> {
    let count = volume.count();
    if a == 0 || a > count || b == 0 || b > count {
        return Err(Fail::from("no such trace"));
    }
    volume.prepare_move(&mut Room::new(alloc), a, b)?;
    Ok(())
}

// Puts a trace in front of trace p, with this payload.
fn insert(
    alloc: Global,
    volume: &mut Overlay<u32>,
    p: u32,
    bytes: &[u8],
    payload: u32,
) -> Result<(), Fail> {
    if volume.count() > 10_000 || volume.length() > 10_000_000 || bytes.len() > 10_000 {
        return Err(Fail::from("too much"));
    }
    if p == 0 || p > volume.count() + 1 {
        return Err(Fail::from("no such position"));
    }
    if !is_trace(&volume.head(), bytes) {
        return Err(Fail::from("no trace"));
    }
    volume.insert(
        &mut Room::new(alloc),
        p,
        Vec::from_slice(alloc, bytes)?,
        payload,
    )?;
    Ok(())
}

#[test]
fn counts_looks(rt: HostRuntime) -> Result<(), Fail> {
    on_small(
        rt.alloc(),
        &mut |_: &[u8], volume: &mut Overlay<u32>| {
            assert_eq!(rt; volume.looks(), 0);
            assert!(rt; has(volume, 1)?);
            assert!(rt; has(volume, 2)?);
            assert!(rt; has(volume, 2)?);
            assert!(rt; !has(volume, 0)?);
            assert!(rt; !has(volume, 3)?);
            assert_eq!(rt; volume.looks(), 3);
            Ok(())
        },
    )
}

// Whether a look at trace p shows one.
fn has(volume: &mut Overlay<u32>, p: u32) -> Result<bool, Fail> {
    Ok(volume.look(p)?.is_some())
}

// A put over the second trace and a new one in front are seen by looks at one trace after another.
#[test]
fn looks_at_all_traces(rt: HostRuntime) -> Result<(), Fail> {
    let alloc = rt.alloc();
    let new = trace(alloc, 1, 0x22)?;
    on_small(
        alloc,
        &mut |file: &[u8], volume: &mut Overlay<u32>| {
            let (new, first) = (new.as_slice(), part(file, 3600, 3844));
            expect_traces(&rt, volume, &[first, part(file, 3844, 4088)])?;
            assert_eq!(rt; volume.looks(), 2);
            put(alloc, volume, 2, 0, part(file, 3600, 3844))?;
            insert(alloc, volume, 1, new, 7)?;
            let before = volume.looks();
            expect_traces(&rt, volume, &[new, first, first])?;
            expect_payloads(&rt, volume, &[7, 1, 2]);
            assert_eq!(rt; volume.looks(), before.saturating_add(3));
            Ok(())
        },
    )
}

fn expect_as_loaded(
    rt: &impl Abort,
    alloc: Global,
    loaded: &mut Overlay<u32>,
    file: &[u8],
) -> Result<(), Fail> {
    assert_eq!(rt; loaded.count(), 2);
    assert_eq!(rt; loaded.looks(), 2);
    expect_payloads(rt, loaded, &[5, 6]);
    expect_saved(rt, alloc, loaded, &[file])
}

// Whether the next trace, which then gets this payload, has these bytes.
fn shows_next(
    alloc: Global,
    loading: &mut Loading<u32>,
    expected: &[u8],
    payload: u32,
) -> Result<bool, Fail>
    ensures volume { loading.new.volume ≡ loading.old.volume }
    ensures payloads { OnOk result
        (length loading.new.payloads ≡ length loading.old.payloads + 1) }
{
    let Some(view) = loading.next_trace() else {
        return Err(Fail::from("no trace more"));
    };
    let shown = has_bytes(&view, expected);
    loading.push(&mut Room::new(alloc), payload)?;
    Ok(shown)
}

// Gives the two traces their payloads, each once it was shown.
fn give_payloads(
    rt: &impl Abort,
    alloc: Global,
    loading: &mut Loading<u32>,
    file: &[u8],
) -> Result<(), Fail>
    requires { loading.old.payloads ≡ [] }
    ensures volume { loading.new.volume ≡ loading.old.volume }
    ensures payloads { OnOk result
        (length loading.new.payloads ≡ count_of loading.new.volume) }
{
    if loading.count() != 2 {
        return Err(Fail::from("not two traces"));
    }
    assert!(rt; shows_next(alloc, loading, part(file, 3600, 3844), 5)?);
    assert!(rt; shows_next(alloc, loading, part(file, 3844, 4088), 6)?);
    assert!(rt; loading.next_trace().is_none());
    Ok(())
}

// The file, read byte by byte.
fn loading_in_steps(rt: &impl Abort, alloc: Global, file: &[u8]) -> Result<Loading<u32>, Fail>
    ensures { IfOk result (λ l. l.payloads ≡ []) }
{
    let limits = limits()?;
    let mut reader = Source::new(StepReader::new(file, 1, u64::MAX));
    let loading = Loading::load(
        &mut Room::new(alloc),
        &mut reader,
        Reading::as_written(),
        limits,
    );
    assert_eq!(rt; reader.failures(), 0);
    Ok(loading?)
}

// The volume of the file, once its traces got their payloads.
fn loaded_in_steps(rt: &impl Abort, alloc: Global, file: &[u8]) -> Result<Overlay<u32>, Fail> {
    let mut loading = loading_in_steps(rt, alloc, file)?;
    match give_payloads(rt, alloc, &mut loading, file) {
        Ok(()) => Ok(loading.finish()),
        Err(fail) => {
            loading.close();
            Err(fail)
        }
    }
}

fn load_in_steps(rt: &impl Abort, alloc: Global, file: &[u8]) -> Result<(), Fail> {
    let mut loaded = loaded_in_steps(rt, alloc, file)?;
    let as_loaded = expect_as_loaded(rt, alloc, &mut loaded, file);
    loaded.close();
    as_loaded
}

#[test]
fn loads_in_steps(rt: HostRuntime) -> Result<(), Fail> {
    let alloc = rt.alloc();
    let file = two_traces(alloc)?;
    load_in_steps(&rt, alloc, file.as_slice())
}

fn prepare_and_discard(
    rt: &impl Abort,
    alloc: Global,
    file: &[u8],
    volume: &mut Overlay<u32>,
) -> Result<(), Fail> {
    let first = part(file, 3600, 3844);
    prepare_over_two(alloc, volume, 240, &[1, 2, 5, 6])?;
    expect_trace(rt, volume, 1, first);
    assert!(rt; volume.looks() == 3);
    assert!(rt; ends_ahead(volume, 1, &[1, 2, 0, 0]));
    assert!(rt; ends_ahead(volume, 2, &[5, 6, 0, 9]));
    assert!(rt; volume.looks() == 5);
    volume.discard();
    assert!(rt; ends_ahead(volume, 1, &[0, 7, 0, 0]));
    expect_saved(rt, alloc, volume, &[file])
}

fn prepare_and_commit(
    rt: &impl Abort,
    alloc: Global,
    file: &[u8],
    volume: &mut Overlay<u32>,
) -> Result<(), Fail> {
    prepare(alloc, volume, 2, 240, &[3, 4])?;
    assert!(rt; ends_ahead(volume, 1, &[0, 7, 0, 0]));
    assert!(rt; ends_ahead(volume, 2, &[3, 4, 0, 9]));
    expect_saved(rt, alloc, volume, &[file])?;
    volume.commit();
    volume.commit();
    expect_saved(rt, alloc, volume, &[part(file, 0, 4084), &[3, 4, 0, 9]])
}

// The traces stay as they are, and are shown as they would be, until the edit is made.
#[test]
fn prepares_and_commits(rt: HostRuntime) -> Result<(), Fail> {
    let alloc = rt.alloc();
    on_small(
        alloc,
        &mut |file: &[u8], volume: &mut Overlay<u32>| {
            prepare_and_discard(&rt, alloc, file, volume)?;
            prepare_and_commit(&rt, alloc, file, volume)
        },
    )
}

// Makes the prepared edit, and gives trace p this payload then.
fn commit_with(volume: &mut Overlay<u32>, p: u32, payload: u32) -> Result<(), Fail> {
    if p == 0 || p > volume.count() {
        return Err(Fail::from("no such trace"));
    }
    volume.commit_with(p, payload);
    Ok(())
}

// The payload is that of the trace that the bytes lie over, or of another.
#[test]
fn commits_with_a_payload(rt: HostRuntime) -> Result<(), Fail> {
    let alloc = rt.alloc();
    on_small(
        alloc,
        &mut |file: &[u8], volume: &mut Overlay<u32>| {
            prepare(alloc, volume, 2, 240, &[3, 4])?;
            expect_payloads(&rt, volume, &[1, 2]);
            commit_with(volume, 2, 9)?;
            expect_payloads(&rt, volume, &[1, 9]);
            prepare(alloc, volume, 2, 240, &[5])?;
            commit_with(volume, 1, 8)?;
            expect_payloads(&rt, volume, &[8, 9]);
            expect_saved(&rt, alloc, volume, &[part(file, 0, 4084), &[5, 4, 0, 9]])
        },
    )
}

fn move_and_discard(
    rt: &impl Abort,
    alloc: Global,
    file: &[u8],
    last: &[u8],
    volume: &mut Overlay<u32>,
) -> Result<(), Fail> {
    prepare_move(alloc, volume, 3, 1)?;
    expect_payloads(rt, volume, &[1, 2, 3]);
    assert!(rt; ends_ahead(volume, 1, &[0x11; 4]));
    assert!(rt; ends_ahead(volume, 2, &[0, 7, 0, 0]));
    assert!(rt; ends_ahead(volume, 3, &[0, 0, 0, 9]));
    volume.discard();
    assert!(rt; ends_ahead(volume, 1, &[0, 7, 0, 0]));
    expect_saved(rt, alloc, volume, &[file, last])
}

fn move_and_commit(
    rt: &impl Abort,
    alloc: Global,
    file: &[u8],
    last: &[u8],
    volume: &mut Overlay<u32>,
) -> Result<(), Fail> {
    prepare_move(alloc, volume, 1, 2)?;
    assert!(rt; ends_ahead(volume, 1, &[0, 0, 0, 9]));
    assert!(rt; ends_ahead(volume, 2, &[0, 7, 0, 0]));
    assert!(rt; ends_ahead(volume, 3, &[0x11; 4]));
    expect_saved(rt, alloc, volume, &[file, last])?;
    volume.commit();
    volume.commit();
    expect_payloads(rt, volume, &[2, 1, 3]);
    let headers = part(file, 0, 3600);
    let first = part(file, 3600, 3844);
    let second = part(file, 3844, 4088);
    expect_saved(rt, alloc, volume, &[headers, second, first, last])
}

// The traces stay where they are, and are shown where they would be, until the move is made.
#[test]
fn prepares_and_commits_a_move(rt: HostRuntime) -> Result<(), Fail> {
    let alloc = rt.alloc();
    let last = trace(alloc, 2, 0x11)?;
    on_small(
        alloc,
        &mut |file: &[u8], volume: &mut Overlay<u32>| {
            insert(alloc, volume, 3, last.as_slice(), 3)?;
            move_and_discard(&rt, alloc, file, last.as_slice(), volume)?;
            move_and_commit(&rt, alloc, file, last.as_slice(), volume)
        },
    )
}
