// A save over a folder in memory, of which each call fails in turn.
ghost use Rattle.std.specs.Prelude.{◌<◌, ◌^◌};

use device_io::Sink;
use safe_save::{FakeFolder, Save, SaveError, Step, end_save, give_up};
use std::alloc::Global;
use std::io::BufWriter;
use std::process::Abort;
use std::test::Fail;

// How many calls a save of nine bytes makes: one to make the file, five writes of two bytes at
// most (the buffer holds four), the mode, two syncs and the rename.
const CALLS: u32 = 10;

// Asserts what a save leaves whose n-th call fails, and all later ones where it is the last.
fn expect_failure(rt: &impl Abort, alloc: Global, nth: u32, last: bool) -> Result<(), Fail>
    requires { nth < 2 ^ 8 }
{
    let to = if last { u32::MAX } else { nth + 1 };
    let folder = FakeFolder::new(alloc, nth, to, 2);
    let mut sink = Sink::new(BufWriter::with_capacity(alloc, 4, Save::new(folder))?);
    let written = sink.write_all(b"nine byte");
    let writer = sink.into_inner();
    let (folder, saved) = match written {
        Ok(()) => end_save(writer, Some(0o640)),
        Err(_) => {
            let (save, _waiting) = writer.into_parts();
            give_up(save)
        }
    };
    check(rt, nth, last, &folder, saved);
    Ok(())
}

#[test]
fn each_call_fails_in_turn(rt: HostRuntime) -> Result<(), Fail> {
    for nth in 0..CALLS + 2 {
        expect_failure(&rt, rt.alloc(), nth, false)?;
        expect_failure(&rt, rt.alloc(), nth, true)?;
    }
    Ok(())
}

// What is there after a save whose n-th call failed, and maybe all later ones.
fn check(rt: &impl Abort, nth: u32, last: bool, folder: &FakeFolder, saved: Result<(), SaveError>) {
    let is_new = match &folder.out {
        Some(file) => {
            assert!(rt;
                file.bytes.as_slice() == b"nine byte".as_slice(),
                "at {nth}"
            );
            assert!(rt; file.mode == Some(0o640) && file.synced, "at {nth}");
            true
        }
        None => false,
    };
    let is_left = folder.beside.is_some();
    match saved {
        Ok(()) => assert!(rt; nth >= CALLS && is_new && !is_left, "at {nth}"),
        Err(SaveError::NotSettled(_)) => {
            assert!(rt; nth == CALLS - 1 && is_new && !is_left, "at {nth}");
        }
        Err(SaveError::NotSaved(fault)) => {
            let step = match nth {
                0 => Step::Create,
                1..=5 => Step::Write,
                6 => Step::SetMode,
                7 => Step::Sync,
                _ => Step::Rename,
            };
            assert!(rt; fault.step == step && !is_new, "at {nth}");
            assert!(rt; folder.failed == Some(step), "at {nth}");
            assert!(rt; is_left == (last && nth > 0), "at {nth}");
            assert!(rt; fault.left == (last && nth > 0) || nth == 0, "at {nth}");
        }
    }
}

#[test]
fn a_save_that_is_given_up_leaves_nothing(rt: HostRuntime) -> Result<(), Fail> {
    use std::io::Write;
    let mut save = Save::new(FakeFolder::new(rt.alloc(), 9, 9, 2));
    assert_eq!(rt; save.write(b"abc")?, 2);
    assert_eq!(rt; save.taken(), 2);
    let (folder, removed) = save.discard();
    assert!(rt; removed.is_ok() && folder.beside.is_none() && folder.out.is_none());
    Ok(())
}

#[test]
fn a_write_that_takes_nothing_has_failed(rt: HostRuntime) -> Result<(), Fail> {
    use std::io::Write;
    let folder = FakeFolder::new(rt.alloc(), 9, 9, 0);
    let mut writer = BufWriter::with_capacity(rt.alloc(), 4, Save::new(folder))?;
    writer.write_all(b"abc")?;
    let (folder, saved) = end_save(writer, None);
    assert!(rt; folder.out.is_none() && folder.beside.is_none());
    match saved {
        Err(SaveError::NotSaved(fault)) => {
            assert!(rt; fault.step == Step::Write && fault.taken == 0 && !fault.left);
        }
        _ => assert!(rt; false),
    }
    Ok(())
}

#[test]
fn an_empty_save_is_an_empty_file(rt: HostRuntime) -> Result<(), Fail> {
    let (folder, saved) = Save::new(FakeFolder::new(rt.alloc(), 9, 9, 2)).finish(None);
    assert!(rt; saved.is_ok());
    assert!(rt;
        folder
            .out
            .is_some_and(|file| file.bytes.is_empty() && file.mode.is_none())
    );
    Ok(())
}
