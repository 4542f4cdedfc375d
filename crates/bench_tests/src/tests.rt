// What a save and a look leave is seen here, over a small file that is made by hand; what each edit
// does and each query answers is tried on the built program. One function owns the bench of
// each test and lends it out: the check of a function that owns a bench takes long, and that of a
// borrower stays short. What it is lent to is a `dyn`: a type parameter would have it checked anew
// for each test.
use bench_core::{Answer, AskFault, Bench, Edit, Field, Items, Query, Refusal};
use device_io::{Sink, Source, StepReader, StepWriter};
use edit_overlay::SaveFault;
use field_map::Place;
use frame_cut::{Limits, Reading};
use num_order::Kind;
use room::Room;
use std::alloc::{AllocError, Global};
use std::process::Abort;
use std::test::Fail;

// Big-endian, revision 1.0, two 16-bit samples a trace, three traces on inline 10 (bytes 189-192).
pub(crate) fn sample_file(alloc: Global) -> Result<Vec<u8>, AllocError> {
    let mut file = vec![in alloc; 0u8; 4332]?;
    let bytes = [
        (3221, 2),
        (3225, 3),
        (3500, 1),
        (3503, 1),
        (3791, 10),
        (4035, 10),
        (4279, 10),
    ];
    put_bytes(file.as_mut_slice(), &bytes);
    Ok(file)
}

// Whether both have so many bytes, and the same ones in front.
fn begins_alike(a: &[u8], b: &[u8], count: usize) -> bool {
    a.len() >= count && b.len() >= count && a[..count] == b[..count]
}

// Writes each byte at its place, where the file has it.
pub(crate) fn put_bytes(file: &mut [u8], bytes: &[(usize, u8)]) {
    for (at, byte) in bytes {
        if *at < file.len() {
            file[*at] = *byte;
        }
    }
}

// Has the function try this file, loaded with room for so many bytes and traces.
pub(crate) fn on_file(
    alloc: Global,
    file: &[u8],
    reading: Reading,
    room: (u64, u32),
    ask: &mut dyn FnMut(&mut Bench),
) -> Result<(), Fail>
    requires { IsAlwaysCallable ask.now }
{
    let limits = Limits::new(room.0, room.1).ok_or("limits")?;
    let mut reader = Source::new(StepReader::new(file, 1000, u64::MAX));
    let mut bench = Bench::load(&mut Room::new(alloc), &mut reader, reading, limits)?;
    ask(&mut bench);
    bench.close();
    Ok(())
}

pub(crate) fn signed(byte: u16, size: u8) -> Field {
    Field::Place(Place {
        extension: 0,
        byte,
        kind: Kind { size, signed: true },
    })
}

// A field of traces a to b counted up.
pub(crate) fn renumber(a: u32, b: u32, field: Field, first: i128, step: i128) -> Edit {
    Edit::Renumber {
        first_trace: a,
        last_trace: b,
        field,
        first_value: first,
        step,
    }
}

// The refusal of an edit, if it met one.
fn refusal(bench: &mut Bench, alloc: Global, edit: Edit) -> Option<Refusal> {
    bench.apply(&mut Room::new(alloc), &edit).err()
}

// Whether the edit meets this refusal, or none where none is expected.
pub(crate) fn meets(
    bench: &mut Bench,
    alloc: Global,
    edit: Edit,
    expected: Option<Refusal>,
) -> bool {
    refusal(bench, alloc, edit) == expected
}

// The fault of a query, if it met one.
fn fault(bench: &mut Bench, alloc: Global, query: Query) -> Option<AskFault> {
    bench.ask(&mut Room::new(alloc), &query).err()
}

pub(crate) fn is_answered(bench: &mut Bench, alloc: Global, query: Query) -> bool {
    fault(bench, alloc, query).is_none()
}

// How many looks an answer takes, if there is one.
pub(crate) fn looks_for(bench: &mut Bench, alloc: Global, query: Query) -> Option<u64> {
    let before = bench.volume().looks();
    if !is_answered(bench, alloc, query) {
        return None;
    }
    bench.volume().looks().checked_sub(before)
}

// The number that answers, if one does.
fn number_in(asked: &Result<Answer, AskFault>) -> Option<i128> {
    match asked {
        Ok(Answer::Value(number)) => Some(*number),
        _ => None,
    }
}

// Whether this number answers a query.
fn tells(bench: &mut Bench, alloc: Global, query: Query, expected: i128) -> bool {
    number_in(&bench.ask(&mut Room::new(alloc), &query)) == Some(expected)
}

// Whether the field of trace p has this number.
pub(crate) fn has(bench: &mut Bench, alloc: Global, p: u32, field: Field, expected: i128) -> bool {
    tells(bench, alloc, Query::Get(p, field), expected)
}

// Whether sample k of trace p is this one.
pub(crate) fn shows(bench: &mut Bench, alloc: Global, p: u32, k: u32, expected: i128) -> bool {
    tells(bench, alloc, Query::Sample(p, k), expected)
}

// Whether these values from sample k of trace p on meet this refusal, or none.
pub(crate) fn patches(
    bench: &mut Bench,
    alloc: Global,
    (p, k): (u32, u32),
    numbers: &[i128],
    expected: Option<Refusal>,
) -> bool {
    match Vec::from_slice(alloc, numbers) {
        Ok(values) => meets(
            bench,
            alloc,
            Edit::Patch(p, k, Items::new(values)),
            expected,
        ),
        Err(_) => false,
    }
}

// Whether the bench saves these bytes.
pub(crate) fn saves(bench: &mut Bench, alloc: Global, file: &[u8]) -> bool {
    let mut writer = Sink::new(Vec::new(alloc));
    let is_saved = bench.save(&mut writer).is_ok();
    let saved = writer.into_inner();
    is_saved && saved.as_slice() == file
}

fn save_to_a_failing_writer(rt: &impl Abort, bench: &mut Bench, file: &[u8]) {
    let mut room = [0u8; 4332];
    let mut writer = Sink::new(StepWriter::new(&mut room, 7, 4000));
    let saved = bench.save(&mut writer).err();
    let expected = SaveFault {
        written: 4000,
        read: None,
    };
    assert_eq!(rt; saved, Some(expected));
    assert_eq!(rt; writer.failures(), 1);
    let _writer = writer.into_inner();
    assert!(rt; begins_alike(&room, file, 4000));
}

fn save_twice(rt: &impl Abort, alloc: Global, bench: &mut Bench, file: &[u8]) {
    save_to_a_failing_writer(rt, bench, file);
    assert!(rt; saves(bench, alloc, file));
}

// A writer that fails is told of with the bytes that it took, and no read; the next save has all.
#[test]
fn names_the_bytes_that_a_failing_writer_took(rt: HostRuntime) -> Result<(), Fail> {
    let alloc = rt.alloc();
    let file = sample_file(alloc)?;
    on_file(
        alloc,
        file.as_slice(),
        Reading::as_written(),
        (1 << 32, u32::MAX),
        &mut |bench: &mut Bench| save_twice(&rt, alloc, bench, file.as_slice()),
    )
}
