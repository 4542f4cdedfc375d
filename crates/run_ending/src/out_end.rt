// The end of the save of a run, and what stands under OUT behind it.
ghost use Rattle.std.specs.Prelude.{MatchResult, ◌≡◌, IsErr, IfErr, option_map};
ghost use Rattle.std.specs.Io.Buffered.{writer_contents};
ghost use Rattle.safe_save.specs.Saving.{Stored, IsNeverElse, beside_bytes};
ghost use Rattle.run_ending.specs.Standing.{FitsRun, IsFaultOf, StandsAs, TellsCause, is_whole};
ghost use Rattle.run_ending.specs.declared.out_end.OutEnd.TheVariants.{Refused, Saved};

use safe_save::{Fault, Folder, Save, SaveError, Step, end_save, give_up};
use script_text::RunEnd;
use std::io::BufWriter;

/// How the save of a run ended.
#[derive(Drop)]
pub enum OutEnd {
    /// None was begun: OUT is as it was.
    NotBegun,
    /// OUT is the new file: all bytes that the writer was given, and each crash leaves them.
    Saved,
    /// OUT is as it was, or, where the error says so, the new file, which a power cut may undo.
    Refused(SaveError),
}

/// Ends the save of a run that ended so: writes what waits and lets OUT be the new file, where all
/// lines were run and a save is asked for; else the new file is taken away. The folder comes back.
/// Behind all lines a save that could be done is done: it is refused only where a step failed.
pub fn end_out<F: Folder + Drop>(
    end: RunEnd,
    is_asked: bool,
    writer: BufWriter<Save<F>>,
    mode: Option<u32>,
) -> (F, OutEnd)
    ensures fits { FitsRun is_asked end result.1 }

    // `Saved` is told only where OUT is what the writer was given; `NotBegun`, and `Refused` but
    // for the sync of the folder, only where it is what it was.
    ensures stands { Stored (writer_contents (option_map beside_bytes) writer) (F.disk result.0)
        (StandsAs result.1 mode) }

    // What is told of a save that was refused is what failed, or why it was given up.
    ensures cause { Stored (writer_contents (option_map beside_bytes) writer) (F.disk result.0)
        (λ _. TellsCause (is_whole is_asked end) result.1) }

    // A crash at any moment since the folder was taken leaves the old file or those bytes.
    ensures any_moment { Stored (writer_contents (option_map beside_bytes) writer) (F.disk result.0)
        (IsNeverElse mode) }
{
    match end {
        RunEnd::Done { .. } if is_asked => {
            let (folder, ended) = end_save(writer, mode);
            (folder, told_end(ended))
        }
        RunEnd::Save(_) => {
            let (save, _waiting) = writer.into_parts();
            let (folder, ended) = give_up(save);
            (
                folder,
                OutEnd::Refused(SaveError::NotSaved(fault_of(ended))),
            )
        }
        _ => {
            let (save, _waiting) = writer.into_parts();
            let (folder, _removed) = save.discard();
            (folder, OutEnd::NotBegun)
        }
    }
}

// Why a save was given up.
fn fault_of(ended: Result<(), SaveError>) -> Fault
    requires { IsErr ended }
    ensures { IfErr ended (IsFaultOf result) }
{
    match ended {
        Err(SaveError::NotSaved(fault)) => fault,
        // No folder gives this to a save that is given up, but of one nothing need be known.
        Err(SaveError::NotSettled(error)) => Fault {
            step: Step::Sync,
            error,
            taken: 0,
            left: false,
        },
        Ok(()) => unreachable!(),
    }
}

/// How a save ended that was tried.
pub(crate) fn told_end(ended: Result<(), SaveError>) -> OutEnd
    ensures { MatchResult ended (λ _. result ≡ Saved) (λ e. result ≡ Refused e) }
{
    match ended {
        Ok(()) => OutEnd::Saved,
        Err(error) => OutEnd::Refused(error),
    }
}
