// A reader that gives a few bytes a call and then fails, behind a source that counts its failures.
use device_io::{Failed, ReadFault, Source, StepReader};
use room::Room;
use std::io::Read;
use std::process::Abort;
use std::test::Fail;

// Three bytes, the last one, and the end.
fn expect_steps(rt: &impl Abort, source: &mut Source<StepReader<'_>>, buf: &mut [u8; 8]) {
    assert_eq!(rt; source.read(buf), Ok(3));
    assert_eq!(rt; source.read(&mut buf[3..]), Ok(1));
    assert_eq!(rt; &*buf, b"segy----");
    assert_eq!(rt; source.read(buf), Ok(0));
    assert_eq!(rt; source.failures(), 0);
}

fn expect_two_failures(rt: &impl Abort, source: &mut Source<StepReader<'_>>, buf: &mut [u8; 8]) {
    assert_eq!(rt; source.read(buf), Err(Failed));
    assert_eq!(rt; source.read(buf), Err(Failed));
    assert_eq!(rt; source.failures(), 2);
}

#[test]
fn reads_by_steps_and_counts_failures(rt: HostRuntime) {
    let mut source = Source::new(StepReader::new(b"segy", 3, 3));
    let mut buf = [b'-'; 8];
    expect_steps(&rt, &mut source, &mut buf);
    expect_two_failures(&rt, &mut source, &mut buf);
    let mut inner = source.into_inner();
    assert!(rt; inner.read(&mut buf).is_err());
}

#[test]
fn reads_up_to_a_limit(rt: HostRuntime) -> Result<(), Fail> {
    let mut source = Source::new(StepReader::new(b"segywb", 2, 9));
    let bytes = source.read_up_to(&mut Room::new(rt.alloc()), 6)?;
    assert_eq!(rt; bytes.as_slice(), b"segywb".as_slice());
    assert_eq!(rt; source.failures(), 0);
    Ok(())
}

#[test]
fn refuses_what_is_above_a_limit(rt: HostRuntime) {
    let alloc = rt.alloc();
    let mut source = Source::new(StepReader::new(b"segywb", 2, 9));
    assert_eq!(rt;
        source.read_up_to(&mut Room::new(alloc), 5).err(),
        Some(ReadFault::TooLarge)
    );
    let mut source = Source::new(StepReader::new(b"segywb", 2, 3));
    assert_eq!(rt;
        source.read_up_to(&mut Room::new(alloc), 6).err(),
        Some(ReadFault::ReadFailed)
    );
    assert_eq!(rt; source.failures(), 1);
}

// What is expected changes the room alone: fewer bytes, as many, more, and more than there is
// memory for.
#[test]
fn reads_what_comes(rt: HostRuntime) -> Result<(), Fail> {
    let alloc = rt.alloc();
    for expected in [2, 6, 9, u64::MAX] {
        let mut source = Source::expecting(StepReader::new(b"segywb", 4, 9), expected);
        let bytes = source.read_up_to(&mut Room::new(alloc), u64::MAX)?;
        assert_eq!(rt; bytes.as_slice(), b"segywb".as_slice());
    }
    let mut source = Source::expecting(StepReader::new(b"segywb", 4, 9), 6);
    let bytes = source.read_up_to(&mut Room::new(alloc), 1 << 40)?;
    assert_eq!(rt; bytes.capacity(), 6);
    Ok(())
}
