// How a save of a session ended that is a repair of FILE itself.
ghost use Rattle.std.specs.Prelude.{◌≡◌};

use crate::repaired::Repaired;
use journal_save::Disk;

/// How a save of a session ended that is a repair of FILE itself.
#[derive(Debug, Drop)]
pub enum Attempt {
    /// An earlier repair of the session did not come to its end, or wrote another volume: nothing
    /// is written any more.
    Stopped,
    /// There was no memory for it. FILE is as it was.
    NoMemory,
    /// It ended so.
    Ended(Repaired),
}

/// Who is told how each repair of a session ended, and may look at FILE then.
pub trait Watcher<D: Disk> {
    /// A repair ended so.
    fn hear(&mut self, disk: &mut D, attempt: Attempt)
        ensures { D.disk disk.new ≡ D.disk disk.old };
}
