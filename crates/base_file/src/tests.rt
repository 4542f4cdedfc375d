use super::*;
use crate::room::Room;
use std::alloc::{AllocError, Global};
use std::cell::Cell;
use std::io;
use std::os::unix::fs::FileExt;
use std::process::Abort;
use std::test::Fail;

// How a file in memory answers: from which place on its reads fail, and how many there were.
#[derive(Drop)]
struct Device {
    bad: Cell<u64>,
    reads: Cell<u64>,
}

fn good_below(bad: u64) -> Device {
    Device {
        bad: Cell::new(bad),
        reads: Cell::new(0),
    }
}

// A file in memory whose reads give at most so many bytes at once.
#[derive(Drop)]
struct FakeFile<'a> {
    bytes: Vec<u8>,
    step: usize,
    device: &'a Device,
}

impl FileExt for FakeFile<'_> {
    fn read_at(&self, buf: &mut [u8], offset: u64) -> io::Result<usize> {
        self.device
            .reads
            .set(self.device.reads.get().wrapping_add(1));
        if offset >= self.device.bad.get() {
            return Err(io::ErrorKind::Other.into());
        }
        let start = self.bytes.len().min(offset as usize);
        let rest = &self.bytes[start..];
        let count = self.step.min(buf.len()).min(rest.len());
        buf[..count].copy_from_slice(&rest[..count]);
        Ok(count)
    }

    fn write_at(&self, _buf: &[u8], _offset: u64) -> io::Result<usize> {
        Err(io::ErrorKind::Other.into())
    }
}

fn file_of(alloc: Global, step: usize, device: &Device) -> Result<FakeFile<'_>, AllocError> {
    Ok(FakeFile {
        bytes: b"0123456789abcdefghij".to_vec(alloc)?,
        step,
        device,
    })
}

fn loaded<'a>(
    rt: &impl Abort,
    alloc: Global,
    step: usize,
    device: &'a Device,
) -> Result<Disk<FakeFile<'a>>, Fail> {
    let mut loading = Loading::new(file_of(alloc, step, device)?);
    let mut block = [0u8; 8];
    for _ in 0..20 {
        if loading.next(&mut block).expect(rt, "a block") == 0 {
            break;
        }
    }
    device.reads.set(0);
    Ok(loading.finish())
}

#[test]
fn loads_in_one_pass_and_reads_by_place(rt: HostRuntime) -> Result<(), Fail> {
    let device = good_below(99);
    let mut disk = loaded(&rt, rt.alloc(), 3, &device)?;
    assert_eq!(rt; disk.length(), 20);
    let mut four = [0u8; 4];
    let length = disk.length();
    if length == 20 {
        assert!(rt; disk.read(16, &mut four).is_ok());
        assert_eq!(rt; &four, b"ghij");
    }
    Ok(())
}

#[test]
fn a_failed_pass_is_told(rt: HostRuntime) -> Result<(), Fail> {
    let device = good_below(3);
    let mut loading = Loading::new(file_of(rt.alloc(), 3, &device)?);
    let mut block = [0u8; 8];
    assert_eq!(rt; loading.next(&mut block), Ok(3));
    assert_eq!(rt; loading.next(&mut block), Err(ReadFault::ReadFailed));
    Ok(())
}

#[test]
fn lends_bytes_in_memory(rt: HostRuntime) -> Result<(), Fail> {
    let alloc = rt.alloc();
    let bytes = b"0123456789abcdefghij".to_vec(alloc)?;
    let mut held = Held::in_memory(alloc, bytes);
    if held.length() == 20 {
        held.fetch(16, 4).expect(&rt, "bytes in memory");
        assert_eq!(rt; held.lent(16, 4), b"ghij".as_slice());
        assert_eq!(rt; held.edge(0, 4), b"0123".as_slice());
    }
    Ok(())
}

#[test]
fn a_second_look_reads_nothing(rt: HostRuntime) -> Result<(), Fail> {
    let device = good_below(99);
    let mut disk = loaded(&rt, rt.alloc(), 20, &device)?;
    let mut room = Room::new(b"........".to_vec(rt.alloc())?);
    if disk.length() == 20 {
        room.fetch(&mut disk, 16, 4).expect(&rt, "the last bytes");
        room.fetch(&mut disk, 16, 4).expect(&rt, "the same bytes");
        room.fetch(&mut disk, 17, 2).expect(&rt, "some of them");
        assert_eq!(rt; room.lent(16, 4), b"ghij".as_slice());
        assert_eq!(rt; device.reads.get(), 1);
    }
    Ok(())
}

#[test]
fn neighbours_are_read_by_a_block(rt: HostRuntime) -> Result<(), Fail> {
    let device = good_below(99);
    let mut disk = loaded(&rt, rt.alloc(), 20, &device)?;
    let mut room = Room::new(b"........".to_vec(rt.alloc())?);
    if disk.length() == 20 {
        room.fetch(&mut disk, 0, 3).expect(&rt, "a block");
        room.fetch(&mut disk, 3, 3).expect(&rt, "the same block");
        assert_eq!(rt; room.lent(3, 3), b"345".as_slice());
        assert_eq!(rt; device.reads.get(), 1);
        room.fetch(&mut disk, 6, 3).expect(&rt, "the next block");
        room.fetch(&mut disk, 11, 3).expect(&rt, "the end of it");
        assert_eq!(rt; room.lent(11, 3), b"bcd".as_slice());
        assert_eq!(rt; device.reads.get(), 2);
    }
    Ok(())
}

#[test]
fn elsewhere_no_more_is_read_than_asked_for(rt: HostRuntime) -> Result<(), Fail> {
    let device = good_below(99);
    let mut disk = loaded(&rt, rt.alloc(), 20, &device)?;
    let mut room = Room::new(b"........".to_vec(rt.alloc())?);
    if disk.length() == 20 {
        room.fetch(&mut disk, 10, 3).expect(&rt, "three bytes");
        assert_eq!(rt; room.lent(10, 3), b"abc".as_slice());
        assert_eq!(rt; room.filled, 3);
        assert!(rt; room.fetch(&mut disk, 10, 9) == Err(ReadFault::TooLarge));
    }
    Ok(())
}

#[test]
fn a_fault_behind_a_trace_is_none_of_it(rt: HostRuntime) -> Result<(), Fail> {
    let device = good_below(99);
    let mut disk = loaded(&rt, rt.alloc(), 3, &device)?;
    let mut room = Room::new(b"........".to_vec(rt.alloc())?);
    if disk.length() == 20 {
        device.bad.set(4);
        room.fetch(&mut disk, 0, 3)
            .expect(&rt, "what stands before the fault");
        assert_eq!(rt; room.lent(0, 3), b"012".as_slice());
        assert_eq!(rt; room.filled, 3);
    }
    Ok(())
}

#[test]
fn a_failed_read_leaves_nothing(rt: HostRuntime) -> Result<(), Fail> {
    let device = good_below(99);
    let mut disk = loaded(&rt, rt.alloc(), 20, &device)?;
    let mut room = Room::new(b"........".to_vec(rt.alloc())?);
    if disk.length() == 20 {
        room.fetch(&mut disk, 0, 3).expect(&rt, "a block");
        device.bad.set(0);
        assert!(rt; room.fetch(&mut disk, 16, 4) == Err(ReadFault::ReadFailed));
        assert_eq!(rt; room.filled, 0);
        assert!(rt; room.fetch(&mut disk, 0, 3) == Err(ReadFault::ReadFailed));
    }
    Ok(())
}
