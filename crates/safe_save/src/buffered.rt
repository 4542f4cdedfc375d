// A save through a buffer.
ghost use Rattle.std.specs.Prelude.{◌≢◌, ◌≤◌, length, take, OnOk, IfErr, IsErr, option_map};
ghost use Rattle.std.specs.Io.Buffered.{writer_contents};
ghost use Rattle.std.specs.Io.KnownBytes.{Appends};
ghost use Rattle.safe_save.specs.Saving.{Known, Over, Stored, beside_bytes, IsStored, IsNotStored, IsCause, HasFailed, IsNeverElse, NeverTouched, IsGone};

use crate::folder::Folder;
use crate::save::Save;
use crate::save_error::{Fault, SaveError, Step};
use std::io::{BufWriter, Error, ErrorKind, Write};

/// Ends a save: writes what waits in the buffer, and lets OUT be the new file. The folder comes
/// back.
pub fn end_save<F: Folder + Drop>(
    writer: BufWriter<Save<F>>,
    mode: Option<u32>,
) -> (F, Result<(), SaveError>)
    // At `Ok` OUT is the bytes that the writer held, all of them, and is found so after each crash.
    ensures saved { OnOk result.1 (Stored (writer_contents (option_map beside_bytes) writer)
        (F.disk result.0) (IsStored mode)) }

    ensures refused { IfErr result.1 (λ e. Stored (writer_contents (option_map beside_bytes) writer)
        (F.disk result.0) (IsNotStored e mode)) }

    // It does not give up by itself: a step failed, the one that it tells was the last to, and so
    // many bytes the new file took.
    ensures cause { IfErr result.1 (λ e. Stored (writer_contents (option_map beside_bytes) writer)
        (F.disk result.0) (λ _. IsCause e)) }

    // A crash at any moment since the folder was taken leaves the old file or those bytes.
    ensures any_moment { Stored (writer_contents (option_map beside_bytes) writer) (F.disk result.0)
        (IsNeverElse mode) }
{
    let (mut save, waiting) = writer.into_parts();
    if write_out(&mut save, waiting.as_slice()) == waiting.len() {
        save.finish(mode)
    } else {
        give_up(save)
    }
}

// Writes what waited, until all of it is written or a write fails, and tells how many bytes were.
fn write_out<F: Folder>(save: &mut Save<F>, waiting: &[u8]) -> usize
    ensures bound { result ≤ length waiting.now }
    ensures bytes { Appends (option_map beside_bytes save.old) (option_map beside_bytes save.new)
        (take result waiting.now) }
    ensures cause { result ≢ length waiting.now → Known save.new HasFailed }
{
    let mut written = 0;
    while written < waiting.len() {
        match save.write(&waiting[written..]) {
            Ok(count) => written += count,
            Err(_) => return written,
        }
    }
    written
}

/// Ends a save in which a write failed, or the bytes for one: the new file is taken away. The
/// folder comes back.
pub fn give_up<F: Folder>(save: Save<F>) -> (F, Result<(), SaveError>)
    ensures not_saved { IsErr result.1 }
    ensures refused { IfErr result.1 (λ e. Over (IsGone e) save (F.disk result.0)) }
    ensures any_moment { Over NeverTouched save (F.disk result.0) }
{
    let (step, error) = match save.failure() {
        Some(failure) => failure,
        None => (Step::Write, Error::from(ErrorKind::WriteZero)),
    };
    let taken = save.taken();
    let (folder, removed) = save.discard();
    let fault = Fault {
        step,
        error,
        taken,
        left: removed.is_err(),
    };
    (folder, Err(SaveError::NotSaved(fault)))
}
