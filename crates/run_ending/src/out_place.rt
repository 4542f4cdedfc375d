// OUT of a session, to which each of its saves goes.
ghost use Rattle.std.specs.Prelude.{None, Option, ℕ, List};
ghost use Rattle.safe_save.specs.Places.{IsEnded};

use crate::ending::{Message, SaveEnd, told_of_save};
use crate::finishing::{end_of_one_save, refused_out, save_end, tell, tell_change, tell_cleared};
use crate::target::Target;
use crate::where_to::target_of;
use command_line::Arguments;
use safe_save::{Ended, NotBegun, Original, Save, SaveError, SavePlace, Step};
use std::fs::File;
use std::io::BufWriter;
use std::rt::{Clock, Files};

// Short pieces of a save are written together, so many bytes at once; a piece of as many or more
// goes by itself.
const ROOM: usize = 65536;

/// OUT of a session. Each save looks anew where OUT leads, and one that fails tells why on standard
/// error. Where it went over FILE itself, FILE is from then on what was saved: a save behind it is
/// refused only where another program changed that.
#[derive(Drop)]
pub struct OutPlace<'a, R: Files> {
    rt: &'a R,
    arguments: Arguments<'a>,
    original: Option<Original<'a>>,
    // Of the save that was begun: the mode of a new file.
    mode: Option<u32>,
}

impl<'a, R: Files> OutPlace<'a, R> {
    /// OUT of the command line. `original` is FILE as it was opened.
    pub fn new(
        rt: &'a R,
        arguments: Arguments<'a>,
        original: Option<Original<'a>>,
    ) -> OutPlace<'a, R> {
        OutPlace {
            rt,
            arguments,
            original,
            mode: None,
        }
    }

    /// FILE as it was opened, or as the last save over it left it.
    pub fn original(&self) -> Option<Original<'a>> {
        self.original
    }
}

impl<'a, R: Files<File = File> + AllocGlobal + Eprint + Clock> SavePlace for OutPlace<'a, R> {
    ghost stands = { λ _. None };

    type Writer = BufWriter<Save<Target<'a, R>>>;

    fn begin(&mut self) -> Result<BufWriter<Save<Target<'a, R>>>, NotBegun> {
        let Some(out) = self.arguments.out else {
            return Err(NotBegun::NoPlace);
        };
        let target = match target_of(self.rt, &self.arguments, self.original) {
            Ok(target) => target,
            Err(refusal) => {
                refused_out(self.rt, out, &refusal);
                return Err(NotBegun::NoFile);
            }
        };
        self.mode = target.mode();
        match BufWriter::with_capacity(self.rt.alloc(), ROOM, Save::new(target)) {
            Ok(writer) => Ok(writer),
            Err(_) => {
                let _ = eprintln!(self.rt; "segywb: save failed after 0 bytes");
                let _ = eprintln!(self.rt; "segywb: {out}: out of memory");
                Err(NotBegun::NoFile)
            }
        }
    }

    fn end(&mut self, writer: BufWriter<Save<Target<'a, R>>>, is_whole: bool) -> Ended {
        // Where no write failed, a read of FILE did.
        let is_unread = !is_whole && writer.get_ref().failure().is_none();
        let (target, out) = end_of_one_save(writer, self.mode, is_whole);
        let is_beside = target.is_beside();
        tell_cleared(self.rt, &self.arguments, target.cleared());
        let (save, error) = save_end(self.rt, &self.arguments, self.original, &target, out);
        let ended = ended(save, &error, is_beside);
        if is_unread {
            tell(
                self.rt,
                &self.arguments,
                Message::FileUnread,
                error,
                is_beside,
            );
            let changed = Message::ChangedUnread;
            tell_change(self.rt, &self.arguments, self.original, changed);
        } else {
            tell(
                self.rt,
                &self.arguments,
                told_of_save(save),
                error,
                is_beside,
            );
        }
        if save == SaveEnd::Saved || save == SaveEnd::Unsettled {
            self.original = match target.original() {
                Some(original) => Some(original.watched(self.rt)),
                None => None,
            };
        }
        judged(ended, is_whole)
    }
}

// A save that was not written whole is never told as one: it was given up, which is no end that
// comes to this.
fn judged(ended: Ended, is_whole: bool) -> Ended
    ensures { (written : Option (List ℕ)) → IsEnded is_whole None written result None }
{
    match ended {
        Ended::Saved | Ended::Unsettled if !is_whole => Ended::Torn { taken: 0 },
        ended => ended,
    }
}

// How the save ended for the session. Where OUT itself is written, one that failed has left a part
// of it there, unless it could not be opened.
fn ended(save: SaveEnd, error: &Option<SaveError>, is_beside: bool) -> Ended {
    let (taken, is_opened) = match error {
        Some(SaveError::NotSaved(fault)) => (fault.taken, fault.step != Step::Create),
        _ => (0, false),
    };
    match save {
        SaveEnd::NotBegun | SaveEnd::Saved => Ended::Saved,
        SaveEnd::Failed if is_opened && !is_beside => Ended::Torn { taken },
        SaveEnd::Failed | SaveEnd::Stale | SaveEnd::Unseen => Ended::Failed { taken },
        SaveEnd::Doubtful => Ended::Torn { taken },
        SaveEnd::Unsettled => Ended::Unsettled,
    }
}
