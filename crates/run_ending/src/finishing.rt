// The end of a run: the save, the exit status, and what standard error says.
ghost use Rattle.run_ending.specs.Ending.{IsExitStatus};
ghost use Rattle.run_ending.specs.Standing.{IsStatusOf, MayTell};

use crate::ending::{Message, SaveEnd, exit_status, told, told_of_change};
use crate::out_end::{OutEnd, told_end};
use crate::refused::tell_refused;
use crate::target::Target;
use crate::where_to::OutRefusal;
use command_line::Arguments;
use safe_save::{Fault, Original, Save, SaveError, Step, end_save, give_up, messages_limit};
use script_hints::Notes;
use script_text::RunEnd;
use std::fs::File;
use std::io::BufWriter;
use std::rt::Files;

// No message has more bytes beside the paths of FILE and OUT.
const MESSAGE_ROOM: u64 = 600;

/// Tells what there is to tell of a run and of its save, which ended so in `target`, and gives the
/// exit status: 0 and 1 are told of a save only where OUT is what the writer was given.
pub fn finish<'a, R: Files<File = File> + AllocGlobal + Eprint>(
    rt: &'a R,
    arguments: &Arguments<'a>,
    original: Option<Original<'a>>,
    end: RunEnd,
    target: Target<'a, R>,
    out: OutEnd,
    notes: &Notes,
) -> u8
    ensures { IsStatusOf end out result }
{
    let is_beside = target.is_beside();
    if !matches!(out, OutEnd::NotBegun) {
        tell_cleared(rt, arguments, target.cleared());
    }
    let (save, error) = save_end(rt, arguments, original, &target, out);
    if !arguments.quiet {
        tell_refused(rt, arguments, end, save, notes);
    }
    tell(rt, arguments, told(end, save), error, is_beside);
    tell_change(rt, arguments, original, told_of_change(end, save));
    exit_status(end, save)
}

/// Tells of the end of a run behind which nothing is to be saved what there is to tell, and gives
/// the exit status: of a session, each save of which was told of where it failed, or of a file that
/// was not loaded. `original` is FILE as it was opened, or as the last save over it left it.
pub fn finish_told<'a, R: Files<File = File> + AllocGlobal + Eprint>(
    rt: &R,
    arguments: &Arguments<'a>,
    original: Option<Original<'a>>,
    end: RunEnd,
) -> u8
    ensures { IsExitStatus end result }
{
    let not_begun = SaveEnd::NotBegun;
    if !arguments.quiet {
        tell_refused(rt, arguments, end, not_begun, &Notes::new());
    }
    tell(rt, arguments, told(end, not_begun), None, true);
    tell_change(rt, arguments, original, told_of_change(end, not_begun));
    exit_status(end, not_begun)
}

/// How the save ended for the one who called the program; where it was refused also why. Beside OUT
/// a change of FILE was seen before the rename; over OUT itself the copy has been made by now.
pub(crate) fn save_end<'a, R: Files<File = File> + AllocGlobal>(
    rt: &R,
    arguments: &Arguments<'a>,
    original: Option<Original<'a>>,
    target: &Target<'a, R>,
    out: OutEnd,
) -> (SaveEnd, Option<SaveError>)
    ensures { MayTell out result.0 }
{
    match out {
        OutEnd::NotBegun => (SaveEnd::NotBegun, None),
        OutEnd::Saved if is_doubtful(rt, arguments, original, target) => (SaveEnd::Doubtful, None),
        OutEnd::Saved => (SaveEnd::Saved, None),
        OutEnd::Refused(SaveError::NotSettled(error)) => {
            (SaveEnd::Unsettled, Some(SaveError::NotSettled(error)))
        }
        OutEnd::Refused(SaveError::NotSaved(fault)) => {
            let save = if target.is_stale() {
                SaveEnd::Stale
            } else if target.is_unseen() {
                SaveEnd::Unseen
            } else {
                SaveEnd::Failed
            };
            (save, Some(SaveError::NotSaved(fault)))
        }
    }
}

// Whether FILE, whose bytes stay on disk, was changed while they were copied to OUT itself.
fn is_doubtful<'a, R: Files<File = File> + AllocGlobal>(
    rt: &R,
    arguments: &Arguments<'a>,
    original: Option<Original<'a>>,
    target: &Target<'a, R>,
) -> bool {
    let is_copied = arguments.on_disk && !target.is_beside();
    is_copied && original.is_some_and(|original| original.is_changed(rt))
}

/// Tells, where FILE was changed by another program, what this means.
pub(crate) fn tell_change<'a, R: Files + AllocGlobal + Eprint>(
    rt: &R,
    arguments: &Arguments<'a>,
    original: Option<Original<'a>>,
    message: Message,
) {
    if message != Message::Nothing && original.is_some_and(|original| original.is_changed(rt)) {
        tell(rt, arguments, message, None, true);
    }
}

/// Whether standard error takes so many bytes of what is to be told. Where it is a file at the
/// system's limit on file sizes, a write would end the program without its status.
pub(crate) fn is_heard<R: Files + AllocGlobal>(rt: &R, room: u64) -> bool {
    messages_limit(rt) >= room
}

// How many bytes a message may have.
pub(crate) fn room_of(arguments: &Arguments) -> u64 {
    let out = arguments.out.unwrap_or("");
    MESSAGE_ROOM
        .saturating_add(arguments.file.len() as u64)
        .saturating_add(out.len() as u64)
}

// Writes on standard error what there is to tell; of a save that failed also why.
pub(crate) fn tell<R: Files + AllocGlobal + Eprint>(
    rt: &R,
    arguments: &Arguments,
    message: Message,
    error: Option<SaveError>,
    is_beside: bool,
) {
    let out = arguments.out.unwrap_or("");
    if !is_heard(rt, room_of(arguments)) {
        return;
    }
    match (message, error) {
        (Message::AnswersFailed, _) => {
            let _ = eprintln!(rt; "segywb: answers failed");
        }
        (Message::SaveFailed, Some(SaveError::NotSaved(fault))) => {
            save_failed(rt, out, &fault, is_beside);
        }
        (Message::FileUnread, Some(SaveError::NotSaved(fault))) => {
            file_unread(rt, arguments.file, out, &fault, is_beside);
        }
        (Message::SaveUnsettled, Some(SaveError::NotSettled(error))) => {
            let _ = eprintln!(rt; "segywb: saved, but a power cut may undo it");
            let _ = eprintln!(rt;
                "segywb: {out}: its folder did not reach the disk ({error}); run sync"
            );
        }
        (Message::FileUnseen, Some(SaveError::NotSaved(fault))) => {
            file_unseen(rt, arguments.file, out, &fault);
        }
        (Message::SaveDoubtful, _) => {
            let then = "what was saved may be of two files; look at it, and run the script again";
            changed(rt, arguments.file, then);
        }
        (Message::FileChanged, _) => {
            let then = "nothing is saved; look at it, and run the script again";
            changed(rt, arguments.file, then);
        }
        (Message::AnswersDoubtful, _) => {
            let then = "the answers may be those of a file that never was";
            changed(rt, arguments.file, then);
        }
        (Message::ChangedUnread, _) => {
            changed(rt, arguments.file, "look at it, and run the script again");
        }
        _ => {}
    }
}

/// Ends a save of a session, or gives it up where not all was written. The target comes back: it
/// knows FILE as a later save is to find it.
pub(crate) fn end_of_one_save<'a, R: Files<File = File> + AllocGlobal>(
    writer: BufWriter<Save<Target<'a, R>>>,
    mode: Option<u32>,
    is_whole: bool,
) -> (Target<'a, R>, OutEnd) {
    let (target, ended) = if is_whole {
        end_save(writer, mode)
    } else {
        let (save, _waiting) = writer.into_parts();
        give_up(save)
    };
    (target, told_end(ended))
}

/// Tells of the files of earlier saves to OUT that were taken away.
pub(crate) fn tell_cleared<R: Files + AllocGlobal + Eprint>(
    rt: &R,
    arguments: &Arguments,
    cleared: u32,
) {
    let out = arguments.out.unwrap_or("");
    if !is_heard(rt, room_of(arguments)) {
        return;
    }
    if cleared == 1 {
        let _ = eprintln!(rt; "segywb: {out}: a file that a save had left beside it is taken away");
    } else if cleared > 1 {
        let _ = eprintln!(rt;
            "segywb: {out}: {cleared} files that saves had left beside it are taken away"
        );
    }
}

/// Tells of an OUT that nothing can be saved to, before anything was read. The exit status.
pub fn refused_out<R: Eprint>(rt: &R, out: &str, refusal: &OutRefusal) -> u8 {
    let _ = eprintln!(rt; "segywb: save failed after 0 bytes");
    match refusal {
        OutRefusal::NoPlace(error) => {
            let _ = eprintln!(rt; "segywb: {out}: {error}; save elsewhere");
        }
        OutRefusal::NoFileBeside(error) => {
            let _ = eprintln!(rt;
                "segywb: {out}: cannot make a file beside it ({error}); save elsewhere"
            );
        }
        OutRefusal::CutOff => {
            let _ = eprintln!(rt;
                "segywb: {out}: an earlier repair of it was cut off; segywb {out} --recover puts \
                 the old bytes back"
            );
        }
        OutRefusal::UnderWay => {
            let _ = eprintln!(rt; "segywb: {out}: a repair of it is under way; wait for its end");
        }
    }
    4
}

// Tells of a save that failed, and what to do.
fn save_failed<R: Eprint>(rt: &R, out: &str, fault: &Fault, is_beside: bool) {
    let (taken, error) = (fault.taken, &fault.error);
    let what = if is_beside {
        step_beside(fault.step)
    } else {
        step_of_device(fault.step)
    };
    let then = match (is_beside, fault.step) {
        (true, _) => "it is as it was; save elsewhere, or repair FILE itself with --in-place",
        (false, Step::Create) => "it is as it was; save elsewhere",
        (false, _) if taken == 0 => "it took nothing; save elsewhere",
        (false, _) => "it took a part of the file; save elsewhere",
    };
    let left = left_beside(fault);
    let _ = eprintln!(rt; "segywb: save failed after {taken} bytes");
    let _ = eprintln!(rt; "segywb: {out}: {what} ({error}): {then}{left}");
}

// Tells of a save that ended where FILE could not be read again.
fn file_unread<R: Eprint>(rt: &R, file: &str, out: &str, fault: &Fault, is_beside: bool) {
    let taken = fault.taken;
    // OUT itself is opened at the first write.
    let then = if is_beside || taken == 0 {
        "is as it was"
    } else {
        "took a part of the file"
    };
    let left = left_beside(fault);
    let _ = eprintln!(rt; "segywb: save failed after {taken} bytes");
    let _ = eprintln!(rt; "segywb: {file}: cannot be read again: {out} {then}{left}");
}

// Tells of a save before which FILE could not be looked at.
fn file_unseen<R: Eprint>(rt: &R, file: &str, out: &str, fault: &Fault) {
    let (taken, error) = (fault.taken, &fault.error);
    let left = left_beside(fault);
    let _ = eprintln!(rt; "segywb: save failed after {taken} bytes");
    let _ = eprintln!(rt;
        "segywb: {file}: cannot be looked at, so that it may have been changed ({error}): {out} is \
         as it was{left}"
    );
}

// That the new file may still be there.
fn left_beside(fault: &Fault) -> &'static str {
    if fault.left {
        "; a file beside it, whose name begins with a dot, may be left, and can be deleted"
    } else {
        ""
    }
}

// What failed of a save beside OUT.
fn step_beside(step: Step) -> &'static str {
    match step {
        Step::Create => "cannot make a file beside it",
        Step::Write => "cannot write the file beside it",
        Step::SetMode => "cannot give the file beside it its mode",
        Step::Sync => "the file beside it did not reach the disk",
        Step::Rename => "cannot put the file beside it in its place",
    }
}

// What failed of a save to a pipe or a device.
fn step_of_device(step: Step) -> &'static str {
    match step {
        Step::Create => "cannot open it",
        Step::Write | Step::SetMode => "cannot write it",
        Step::Sync | Step::Rename => "it did not reach the disk",
    }
}

// Tells that FILE was changed, and what that means.
pub(crate) fn changed<R: Eprint>(rt: &R, file: &str, then: &str) {
    let _ = eprintln!(rt; "segywb: FILE was changed by another program");
    let _ = eprintln!(rt; "segywb: {file}: {then}");
}
