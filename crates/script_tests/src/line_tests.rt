// One line of a run, alone.
use crate::tests::{options, sample_file};
use device_io::{Sink, Source, StepReader};
use line_texts::OutBuffer;
use room::Room;
use script_hints::Notes;
use script_run::{Bench, answer_line};
use std::alloc::Global;
use std::process::Abort;
use std::test::Fail;

// What is printed for the line, and how many traces it looks at.
fn answered(alloc: Global, line: &[u8]) -> Result<(Vec<u8>, u64), Fail> {
    let file = sample_file(alloc)?;
    let mut reader = Source::new(StepReader::new(file.as_slice(), 1000, u64::MAX));
    let mut room = Room::new(alloc);
    let how = options(false)?;
    let loaded = Bench::load(&mut room, &mut reader, how.reading, how.limits);
    let mut bench = loaded.ok().ok_or("load")?;
    let before = bench.volume().looks();
    let mut answers = Sink::new(Vec::new(alloc));
    let told = answer_line(
        &mut room,
        &mut bench,
        line,
        &mut OutBuffer::new(),
        &mut answers,
        1,
        &mut Notes::new(),
    );
    let looks = bench.volume().looks().saturating_sub(before);
    bench.close();
    let _told = told.ok().ok_or("write")?;
    Ok((answers.into_inner(), looks))
}

fn expect(
    rt: &impl Abort,
    alloc: Global,
    line: &[u8],
    text: &[u8],
    looks: u64,
) -> Result<(), Fail> {
    let told = answered(alloc, line)?;
    assert!(rt; told.0.as_slice() == text);
    assert!(rt; told.1 == looks);
    Ok(())
}

// A section looks at each of its traces once, when its line is written.
#[test]
fn looks_at_the_traces_of_a_line(rt: HostRuntime) -> Result<(), Fail> {
    let alloc = rt.alloc();
    expect(&rt, alloc, b"count", b"traces 3\n", 0)?;
    expect(&rt, alloc, b"sample 2 1", b"value 4\n", 1)?;
    let rows = b"samples 3\n1 1 -2\n2 3 4\n3 -5 6\n";
    expect(&rt, alloc, b"samples all 0 1", rows, 3)?;
    expect(
        &rt,
        alloc,
        b"get 9 inline",
        b"refused E01 no trace 9 of 3\n",
        0,
    )
}
