// Runs whose readers and writers fail at a later call, over a small file that is made by hand.
use device_io::{Sink, Source, StepReader, StepWriter};
use edit_overlay::SaveFault;
use frame_cut::{Limits, LoadFault, Reading};
use refusal_texts::ScriptFault;
use room::Room;
use script_hints::Notes;
use script_run::{Options, RunEnd, run};
use std::alloc::Global;
use std::test::Fail;

// Writes the bytes at a place, counted from 1, where they fit.
pub(crate) fn put(file: &mut [u8], byte: usize, bytes: &[u8]) {
    if byte >= 1 && byte <= file.len() && bytes.len() <= file.len() - (byte - 1) {
        file[byte - 1..byte - 1 + bytes.len()].copy_from_slice(bytes);
    }
}

// A trace of 244 bytes at this byte of the file: its numbers, and two samples of two bytes.
fn put_trace(file: &mut [u8], byte: usize, sequence: u8, samples: [u8; 4]) {
    if byte < 10000 {
        put(file, byte + 7, &[sequence]);
        put(file, byte + 39, &[100]);
        put(file, byte + 115, &[2]);
        put(file, byte + 116, &[0x0f, 0xa0]);
        put(file, byte + 191, &[10]);
        put(file, byte + 195, &[21]);
        put(file, byte + 240, &samples);
    }
}

// A textual header of blanks in EBCDIC and three traces of two samples in format 3; big-endian,
// revision 1.0.
pub(crate) fn sample_file(alloc: Global) -> Result<Vec<u8>, Fail> {
    let mut file = vec![in alloc; 0u8; 4332]?;
    for byte in file.iter_mut().take(3200) {
        *byte = 0x40;
    }
    put(
        file.as_mut_slice(),
        3217,
        &[0x0f, 0xa0, 0, 0, 0, 2, 0, 0, 0, 3],
    );
    put(file.as_mut_slice(), 3501, &[1, 0, 0, 1]);
    put_trace(file.as_mut_slice(), 3601, 1, [0, 1, 0xff, 0xfe]);
    put_trace(file.as_mut_slice(), 3845, 2, [0, 3, 0, 4]);
    put_trace(file.as_mut_slice(), 4089, 3, [0xff, 0xfb, 0, 6]);
    Ok(file)
}

pub(crate) fn options(save: bool) -> Result<Options, Fail> {
    Ok(Options {
        reading: Reading::as_written(),
        limits: Limits::new(1 << 32, u32::MAX).ok_or("limits")?,
        stop: false,
        save,
    })
}

// What a run printed and saved, and how it ended.
#[derive(Drop)]
pub(crate) struct Told {
    pub(crate) end: RunEnd,
    pub(crate) answers: Vec<u8>,
    pub(crate) saved: Vec<u8>,
}

// How a run ends, what it prints and what it saves.
pub(crate) type Wanted<'a> = (RunEnd, &'a [u8], &'a [u8]);

pub(crate) fn is_told(run: &Told, wanted: Wanted) -> bool {
    run.end == wanted.0 && run.answers.as_slice() == wanted.1 && run.saved.as_slice() == wanted.2
}

// A run over readers of the file and of the script.
fn run_readers(alloc: Global, file: StepReader, script: StepReader, options: Options) -> Told {
    let mut reader = Source::new(file);
    let mut lines = Source::new(script);
    let mut answers = Sink::new(Vec::new(alloc));
    let mut out = Sink::new(Vec::new(alloc));
    let end = run(
        &mut Room::new(alloc),
        &mut reader,
        &mut lines,
        &mut answers,
        &mut out,
        options,
        &mut Notes::new(),
    );
    Told {
        end,
        answers: answers.into_inner(),
        saved: out.into_inner(),
    }
}

// Whether a run whose readers fail at a later call ends so and prints this line.
fn fails_to_read(
    alloc: Global,
    file: &[u8],
    (file_calls, script_calls): (u64, u64),
    end: RunEnd,
    line: &[u8],
) -> Result<bool, Fail> {
    let file = StepReader::new(file, 1000, file_calls);
    let script = StepReader::new(b"get 1 @5:4", 7, script_calls);
    let told = run_readers(alloc, file, script, options(true)?);
    Ok(is_told(&told, (end, line, b"".as_slice())))
}

// Readers that fail at a later call.
#[test]
fn tells_failed_reads(rt: HostRuntime) -> Result<(), Fail> {
    let alloc = rt.alloc();
    let file = sample_file(alloc)?;
    let unread = RunEnd::Load(LoadFault::ReadFailed);
    let line = b"load refused L01 read failed\n";
    assert!(rt; fails_to_read(alloc, file.as_slice(), (2, 9), unread, line)?);
    let unread = RunEnd::Script(ScriptFault::ReadFailed);
    let line = b"script refused P01 read failed\n";
    assert!(rt; fails_to_read(alloc, file.as_slice(), (9, 1), unread, line)?);
    Ok(())
}

// The end of a run of two lines over a file, which writes its answers and what it saves into these
// rooms, up to so many bytes of each.
fn run_into(
    alloc: Global,
    file: &[u8],
    (answers_limit, out_limit): (usize, usize),
    printed: &mut [u8],
    saved: &mut [u8],
) -> Result<RunEnd, Fail> {
    let options = options(true)?;
    let mut reader = Source::new(StepReader::new(file, 1000, 99));
    let mut lines = Source::new(StepReader::new(b"get 1 @5:4\nget 1 @5:4", 7, 99));
    let mut answers = Sink::new(StepWriter::new(printed, 3, answers_limit));
    let mut out = Sink::new(StepWriter::new(saved, 7, out_limit));
    let end = run(
        &mut Room::new(alloc),
        &mut reader,
        &mut lines,
        &mut answers,
        &mut out,
        options,
        &mut Notes::new(),
    );
    let _answers = answers.into_inner();
    let _out = out.into_inner();
    Ok(end)
}

// Whether that run over a file ends so, and what it printed begins so. Where the save alone fails
// its first bytes are saved.
fn fails_to_write(
    alloc: Global,
    file: &[u8],
    limits: (usize, usize),
    end: RunEnd,
    held: &[u8],
) -> Result<bool, Fail> {
    let mut printed = [0u8; 99];
    let mut saved = [0u8; 100];
    let ended = run_into(alloc, file, limits, &mut printed, &mut saved)?;
    let is_printed = printed.get(..held.len()) == Some(held);
    Ok(ended == end && is_printed && (saved[16] == 0) == (limits.1 != 100))
}

// Writers that fail within an answer, within a refusal's line and within the save.
#[test]
fn tells_failed_writes(rt: HostRuntime) -> Result<(), Fail> {
    let alloc = rt.alloc();
    let file = sample_file(alloc)?;
    let whole = file.as_slice();
    let end = RunEnd::Answers { written: 12 };
    assert!(rt; fails_to_write(alloc, whole, (12, 9000), end, b"value 1\nvalu")?);
    let short = whole.get(..3599).ok_or("a file")?;
    let end = RunEnd::Answers { written: 5 };
    assert!(rt; fails_to_write(alloc, short, (5, 9000), end, b"load ")?);
    let end = RunEnd::Save(SaveFault {
        written: 100,
        read: None,
    });
    assert!(rt; fails_to_write(alloc, whole, (99, 100), end, b"value 1\nvalue 1\n")?);
    Ok(())
}
