// A repair of FILE itself: what stands in its way, and how it ends.
ghost use Rattle.std.specs.Prelude.{◌≡◌};
ghost use Rattle.run_ending.specs.Ending.{exit_status as exit_status_of, failed_end, repair_end};

use crate::ending::{Message, SaveEnd, exit_status, told_of_change};
use crate::finishing::{changed, is_heard, room_of, tell, tell_change};
use crate::journals::{tell_busy, tell_cut_off};
use crate::refused::tell_refused;
use command_line::Arguments;
use edit_pieces::{Attempt, Repaired, Unfit, Watcher};
use journal_save::{FileDisk, OpenFault, RecoverError, SaveError, has_journal};
use safe_save::Original;
use script_hints::Notes;
use script_text::RunEnd;
use std::fs::File;
use std::io::Error;
use std::rt::{Clock, Files};

/// FILE, open to be repaired, and locked for as long as it is. Where it cannot be, that is told,
/// and the exit status is given.
pub fn disk_of<'a, R: Files<File = File> + AllocGlobal + Eprint>(
    rt: &'a R,
    arguments: &Arguments<'a>,
    original: Option<Original<'a>>,
) -> Result<FileDisk<'a, R>, u8> {
    let file = arguments.file;
    match FileDisk::open(rt, file, original) {
        // Another repair may have been cut off since FILE was opened.
        Ok(_) if has_journal(rt, file).is_ok_and(|is_there| is_there) => {
            tell_cut_off(rt, file);
            Err(3)
        }
        Ok(disk) => Ok(disk),
        Err(OpenFault::Busy) => {
            nothing_saved(rt);
            tell_busy(rt, file);
            Err(4)
        }
        Err(OpenFault::Failed(error)) => {
            nothing_saved(rt);
            let _ = eprintln!(rt; "segywb: {file}: {error}; save elsewhere, with --out");
            Err(4)
        }
    }
}

/// Tells of the end of a run behind which FILE itself was to be repaired, and gives the exit
/// status. `is_stale` is whether FILE had been changed by another program, `journal` the path of
/// its journal.
pub fn finish_in_place<'a, R: Files<File = File> + AllocGlobal + Eprint>(
    rt: &R,
    arguments: &Arguments<'a>,
    original: Option<Original<'a>>,
    end: RunEnd,
    repaired: Repaired,
    is_stale: bool,
    journal: &str,
    notes: &Notes,
) -> u8
    ensures { result ≡ exit_status_of end (repair_end repaired is_stale) }
{
    let save = save_end(&repaired, is_stale);
    if !arguments.quiet {
        tell_refused(rt, arguments, end, save, notes);
    }
    if matches!(end, RunEnd::Answers { .. }) {
        tell(rt, arguments, Message::AnswersFailed, None, true);
    }
    tell_repair(rt, arguments, repaired, is_stale, journal);
    if save == SaveEnd::NotBegun {
        tell_change(rt, arguments, original, told_of_change(end, save));
    }
    exit_status(end, save)
}

/// Tells of each repair of a session where it fails. FILE is from then on what that left: a save
/// behind it is refused only where another program changed it.
#[derive(Drop)]
pub struct RepairTeller<'a, R: Files> {
    rt: &'a R,
    arguments: Arguments<'a>,
}

impl<'a, R: Files> RepairTeller<'a, R> {
    /// Of the FILE of this command line.
    pub fn new(rt: &'a R, arguments: Arguments<'a>) -> RepairTeller<'a, R> {
        RepairTeller { rt, arguments }
    }
}

impl<'a, R: Files<File = File> + AllocGlobal + Eprint + Clock> Watcher<FileDisk<'a, R>>
    for RepairTeller<'a, R> {
    fn hear(&mut self, disk: &mut FileDisk<'a, R>, attempt: Attempt) {
        let file = self.arguments.file;
        match attempt {
            Attempt::Ended(repaired) => {
                if is_touched(&repaired) {
                    disk.renew();
                }
                tell_repair(
                    self.rt,
                    &self.arguments,
                    repaired,
                    disk.is_stale(),
                    disk.journal(),
                );
            }
            _ if !is_heard(self.rt, room_of(&self.arguments)) => {}
            Attempt::NoMemory => {
                nothing_saved(self.rt);
                let _ = eprintln!(self.rt; "segywb: {file}: out of memory: it is as it was");
            }
            Attempt::Stopped => {
                nothing_saved(self.rt);
                let _ = eprintln!(self.rt;
                    "segywb: {file}: an earlier save of this session did not come to its end; end \
                     the session, and look at what that save told"
                );
            }
        }
    }
}

// Whether a repair wrote FILE.
fn is_touched(repaired: &Repaired) -> bool {
    match repaired {
        Repaired::Saved => true,
        Repaired::Failed(SaveError::Untouched(_)) => false,
        Repaired::Failed(_) => true,
        Repaired::NotBegun | Repaired::Unfit(_) | Repaired::Unsettled(_) => false,
    }
}

// How the save ended, as the exit status has it.
fn save_end(repaired: &Repaired, is_stale: bool) -> SaveEnd
    ensures { result ≡ repair_end repaired.now is_stale }
{
    match repaired {
        Repaired::NotBegun => SaveEnd::NotBegun,
        Repaired::Saved => SaveEnd::Saved,
        Repaired::Unfit(_) => SaveEnd::Failed,
        Repaired::Unsettled(_) => SaveEnd::Failed,
        Repaired::Failed(error) => failed_end(error, is_stale),
    }
}

fn failed_end(error: &SaveError, is_stale: bool) -> SaveEnd
    ensures { result ≡ failed_end error.now is_stale }
{
    match error {
        SaveError::Untouched(_) if is_stale => SaveEnd::Stale,
        SaveError::Untouched(_) => SaveEnd::Failed,
        SaveError::Undone(_) => SaveEnd::Failed,
        SaveError::Interrupted(..) => SaveEnd::Failed,
        SaveError::NotSettled(_) => SaveEnd::Unsettled,
    }
}

// Tells of a repair that did not come to its end.
fn tell_repair<R: Files<File = File> + AllocGlobal + Eprint>(
    rt: &R,
    arguments: &Arguments,
    repaired: Repaired,
    is_stale: bool,
    journal: &str,
) {
    let file = arguments.file;
    if !is_heard(rt, room_of(arguments)) {
        return;
    }
    match repaired {
        Repaired::NotBegun | Repaired::Saved => {}
        Repaired::Unfit(why) => {
            nothing_saved(rt);
            tell_unfit(rt, file, why);
        }
        Repaired::Unsettled(error) => {
            nothing_saved(rt);
            let _ = eprintln!(rt;
                "segywb: {file}: what it took before did not reach the disk ({error}): it is as it \
                 was; save elsewhere, with --out"
            );
        }
        Repaired::Failed(SaveError::Untouched(_)) if is_stale => {
            changed(
                rt,
                file,
                "nothing is saved; look at it, and run the script again",
            );
        }
        Repaired::Failed(error) => {
            let is_left = has_journal(rt, file).is_ok_and(|is_there| is_there);
            tell_failed(rt, file, journal, is_left, error);
        }
    }
}

// The first line of a save that left FILE as it was.
fn nothing_saved<R: Eprint>(rt: &R) {
    let _ = eprintln!(rt; "segywb: save failed after 0 bytes");
}

// Tells which edits need a new file.
fn tell_unfit<R: Eprint>(rt: &R, file: &str, why: Unfit) {
    let _ = eprintln!(rt;
        "segywb: {file}: {why}; that needs a new file: save with --out, without --in-place"
    );
}

// Tells of a call that failed. `is_left` is whether the journal is there.
fn tell_failed<R: Eprint>(rt: &R, file: &str, journal: &str, is_left: bool, error: SaveError) {
    let then = "it is as it was; save elsewhere, with --out";
    match error {
        SaveError::Untouched(error) => {
            nothing_saved(rt);
            let _ = eprintln!(rt;
                "segywb: {file}: cannot make its journal {journal} ({error}): {then}"
            );
            if is_left {
                let _ = eprintln!(rt;
                    "segywb: {file}: a journal is left there; segywb {file} --recover takes it away"
                );
            }
        }
        SaveError::Undone(error) => {
            nothing_saved(rt);
            let _ = eprintln!(rt; "segywb: {file}: cannot write it ({error}): {then}");
        }
        SaveError::Interrupted(error, again) => tell_torn(rt, file, journal, error, again),
        SaveError::NotSettled(error) => tell_unsettled(rt, file, journal, is_left, error),
    }
}

// Tells that FILE is the edited one, but may not stay it.
fn tell_unsettled<R: Eprint>(rt: &R, file: &str, journal: &str, is_left: bool, error: Error) {
    let _ = eprintln!(rt; "segywb: saved, but a power cut may undo it");
    if is_left {
        let _ = eprintln!(rt;
            "segywb: {file}: its journal {journal} is still there ({error}); delete it, or segywb \
             {file} --recover puts the old bytes back"
        );
    } else {
        let _ = eprintln!(rt;
            "segywb: {file}: its folder did not reach the disk ({error}); run sync"
        );
    }
}

// Tells that FILE is neither the old file nor the edited one.
fn tell_torn<R: Eprint>(rt: &R, file: &str, journal: &str, error: Error, again: RecoverError) {
    let _ = eprintln!(rt; "segywb: save failed, and FILE holds a part of the edits");
    match again {
        RecoverError::Refused(fault) => {
            let _ = eprintln!(rt;
                "segywb: {file}: cannot write it ({error}), nor put the old bytes back from \
                 {journal} ({fault}); keep both"
            );
        }
        RecoverError::Failed(again) => {
            let _ = eprintln!(rt;
                "segywb: {file}: cannot write it ({error}), nor put the old bytes back ({again}); \
                 segywb {file} --recover puts them back"
            );
        }
    }
}
