// A long answer whose writer fails in the midst of it.
use crate::tests::{options, put};
use device_io::{Sink, Source, StepReader, StepWriter};
use room::Room;
use script_hints::Notes;
use script_run::{RunEnd, run};
use std::alloc::Global;
use std::test::Fail;

// A thousand traces of one sample, each -5 on inline 10 and crossline -21.
fn thousand_traces(alloc: Global) -> Result<Vec<u8>, Fail> {
    let mut file = vec![in alloc; 0u8; 245600]?;
    put(file.as_mut_slice(), 3221, &[0, 1, 0, 0, 0, 3]);
    put(file.as_mut_slice(), 3501, &[1, 0, 0, 1]);
    for trace in 0..1000 {
        let byte = 3601 + 242 * trace;
        put(file.as_mut_slice(), byte + 191, &[10]);
        put(file.as_mut_slice(), byte + 192, &[0xff, 0xff, 0xff, 0xeb]);
        put(file.as_mut_slice(), byte + 240, &[0xff, 0xfb]);
    }
    Ok(file)
}

// What the writer of answers holds of the slice of a thousand traces when it fails behind so many
// bytes, and how the run ends.
fn cut_slice(alloc: Global, limit: usize) -> Result<(Vec<u8>, RunEnd), Fail> {
    let file = thousand_traces(alloc)?;
    let mut room = vec![in alloc; 0u8; 20000]?;
    let mut reader = Source::new(StepReader::new(file.as_slice(), 100000, u64::MAX));
    let mut lines = Source::new(StepReader::new(b"slice 0", 7, u64::MAX));
    let mut answers = Sink::new(StepWriter::new(room.as_mut_slice(), 5000, limit));
    let mut out = Sink::new(Vec::new(alloc));
    let end = run(
        &mut Room::new(alloc),
        &mut reader,
        &mut lines,
        &mut answers,
        &mut out,
        options(false)?,
        &mut Notes::new(),
    );
    let _writer = answers.into_inner();
    Ok((room, end))
}

// Whether this part of the room is the text.
fn holds(room: &[u8], from: usize, to: usize, text: &[u8]) -> bool {
    match room.get(from..to) {
        Some(part) => part == text,
        None => false,
    }
}

// Whether the run ends so when the writer fails behind so many bytes, of which it holds these.
fn cuts(
    alloc: Global,
    limit: usize,
    wanted: RunEnd,
    (from, to): (usize, usize),
    text: &[u8],
) -> Result<bool, Fail> {
    let (room, end) = cut_slice(alloc, limit)?;
    Ok(end == wanted && holds(room.as_slice(), from, to, text))
}

// 11 bytes, then 16 for each of 9 rows, 17 for each of 90, 18 for each of 900, and 19.
#[test]
fn counts_all_bytes_of_a_long_answer(rt: HostRuntime) -> Result<(), Fail> {
    let alloc = rt.alloc();
    let end = RunEnd::Answers { written: 9000 };
    let last = b"row 10 -21 505 -5\nrow 10 \0\0\0";
    assert!(rt; cuts(alloc, 9000, end, (8975, 9003), last)?);
    let end = RunEnd::Done { refused: 0 };
    assert!(rt; cuts(alloc, 20000, end, (0, 15), b"slice 1000\nrow ")?);
    let last = b"row 10 -21 1000 -5\n\0\0\0";
    assert!(rt; cuts(alloc, 20000, end, (17885, 17907), last)?);
    Ok(())
}
