// Sessions whose lines cannot be read on, and whose saves fail.
use crate::tests::{Told, Wanted, is_told, options, sample_file};
use device_io::{Sink, Source, StepReader};
use refusal_texts::ScriptFault;
use room::Room;
use safe_save::MemoryPlace;
use script_run::{Options, Outside, RunEnd, session};
use std::alloc::Global;
use std::test::Fail;

// Whether a session of lines that come by such steps, up to a read that fails, ends so, prints this
// and leaves that in the place.
fn answers_over(
    alloc: Global,
    reader: StepReader,
    options: Options,
    place: MemoryPlace,
    wanted: Wanted,
) -> Result<bool, Fail> {
    let file = sample_file(alloc)?;
    let mut volume = Source::new(StepReader::new(file.as_slice(), 1000, u64::MAX));
    let mut answers = Sink::new(Vec::new(alloc));
    let mut out = Outside { place };
    let end = session(
        &mut Room::new(alloc),
        &mut volume,
        &mut Source::new(reader),
        &mut answers,
        &mut out,
        options,
    );
    let told = Told {
        end,
        answers: answers.into_inner(),
        saved: out.place.bytes,
    };
    Ok(is_told(&told, wanted))
}

// The first read gives a line and a part of the next, and the second fails.
#[test]
fn runs_no_line_that_had_begun(rt: HostRuntime) -> Result<(), Fail> {
    let wanted = (
        RunEnd::Script(ScriptFault::ReadFailed),
        b"traces 3\n\nscript refused P01 read failed\n".as_slice(),
        b"".as_slice(),
    );
    let reader = StepReader::new(b"count\ndelete 1", 14, 1);
    let place = MemoryPlace::new(rt.alloc());
    assert!(rt; answers_over(rt.alloc(), reader, options(true)?, place, wanted)?);
    Ok(())
}

// A place that is nowhere, and one whose saves fail, at the line and at the end.
#[test]
fn tells_of_saves_that_fail(rt: HostRuntime) -> Result<(), Fail> {
    let alloc = rt.alloc();
    let mut nowhere = MemoryPlace::new(alloc);
    nowhere.is_nowhere = true;
    let wanted = (
        RunEnd::Done { refused: 1 },
        b"refused S07 no out\n\ntraces 3\n\n".as_slice(),
        b"".as_slice(),
    );
    let reader = StepReader::new(b"save\ncount\n", 100, u64::MAX);
    assert!(rt; answers_over(alloc, reader, options(false)?, nowhere, wanted)?);
    let mut failing = MemoryPlace::new(alloc);
    failing.fails = true;
    let wanted = (
        RunEnd::SaveAtEnd { refused: 1 },
        b"refused S08 save failed after 4332 bytes\n\n".as_slice(),
        b"".as_slice(),
    );
    let reader = StepReader::new(b"save\n", 100, u64::MAX);
    assert!(rt; answers_over(alloc, reader, options(true)?, failing, wanted)?);
    Ok(())
}
