// A writer that takes a few bytes a call and then fails, behind a sink that counts its failures.
use device_io::{Failed, Sink, StepWriter, WriteFault};
use std::process::Abort;

// Three bytes, one more, and no other.
fn expect_steps(rt: &impl Abort, sink: &mut Sink<StepWriter<'_>>) {
    assert_eq!(rt; sink.write(b"segywb"), Ok(3));
    assert_eq!(rt; sink.write(b"ywb"), Ok(1));
    assert_eq!(rt; sink.failures(), 0);
    assert_eq!(rt; sink.write(b"wb"), Err(Failed));
    assert_eq!(rt; sink.failures(), 1);
}

#[test]
fn writes_by_steps_and_counts_failures(rt: HostRuntime) {
    let mut room = [b'-'; 8];
    let mut sink = Sink::new(StepWriter::new(&mut room, 3, 4));
    expect_steps(&rt, &mut sink);
    let _writer = sink.into_inner();
    assert_eq!(rt; &room, b"segy----");
}

#[test]
fn writes_all_or_names_how_much(rt: HostRuntime) {
    let mut room = [b'-'; 8];
    let mut sink = Sink::new(StepWriter::new(&mut room, 3, 8));
    assert_eq!(rt; sink.write_all(b"segywb"), Ok(()));
    assert_eq!(rt; sink.write_all(b"sgy"), Err(WriteFault { written: 2 }));
    assert_eq!(rt; sink.failures(), 1);
    let _writer = sink.into_inner();
    assert_eq!(rt; &room, b"segywbsg");
}

#[test]
fn a_write_that_takes_nothing_fails(rt: HostRuntime) {
    let mut room = [b'-'; 2];
    let mut sink = Sink::new(StepWriter::new(&mut room, 0, 2));
    assert_eq!(rt; sink.write(b""), Ok(0));
    assert_eq!(rt; sink.failures(), 0);
    assert_eq!(rt; sink.write(b"s"), Err(Failed));
    assert_eq!(rt; sink.failures(), 1);
}
