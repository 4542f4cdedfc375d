// FILE and its journal, as a save sees them.
ghost use Rattle.std.specs.Prelude.{◌≡◌, ◌⊎◌, Bool, Option, List, ℕ, None, MatchResult, OnOk, IfOk, length, take, drop};
ghost use Rattle.journal_save.specs.Disk.{Over, Known, May, Turns, Tells, Flushes, Shows, IsRead, IsPart, IsLong, facts_of, same_state, created, appended, journal_synced, journal_lost, published, half_published, settled, unlisted, half_unlisted, cleared, wrote, write_lost, sync_lost};

use journal_codes::FileFacts;
use std::io::Result;

/// FILE, the name of its journal, and a new name beside it.
pub trait Disk {
    /// What is there, where it is known, and what a crash leaves.
    ghost disk: { Self → Option Rattle.journal_save.specs.Disk.Disk };

    /// A call has failed.
    ghost failed: { Self → Bool };

    /// What tells FILE from others.
    fn facts(&self) -> FileFacts
        ensures { Known (disk self.now) (λ d. result ≡ facts_of d.now) };

    /// Fills the buffer from FILE, from this place on. It is refused where that goes past the end
    /// of FILE.
    fn read_at(&mut self, at: u64, buf: &mut [u8]) -> Result<()>
        ensures same { disk self.new ≡ disk self.old }
        ensures bytes { OnOk result (Known (disk self.old) (λ d. IsRead at buf.new d.now)) }
        ensures cause { Tells result (failed self.old) (failed self.new) };

    /// Makes the new journal, with nothing in it. It is refused where a journal has the journal's
    /// name already: that is one of an earlier save, which was cut off.
    fn create(&mut self) -> Result<()>
        ensures turns { Turns result created same_state (disk self.old) (disk self.new) }
        ensures absent { OnOk result (Known (disk self.old) (λ d. d.now.journal ≡ None)) }
        ensures cause { Tells result (failed self.old) (failed self.new) };

    /// Writes bytes at the end of the new journal.
    fn append(&mut self, bytes: &[u8]) -> Result<()>
        ensures turns { Turns result (appended bytes.now) journal_lost
            (disk self.old) (disk self.new) }
        ensures cause { Tells result (failed self.old) (failed self.new) };

    /// After it, a crash leaves all of the new journal.
    fn sync_journal(&mut self) -> Result<()>
        ensures turns { Turns result journal_synced journal_lost (disk self.old) (disk self.new) }
        ensures cause { Tells result (failed self.old) (failed self.new) };

    /// Gives the new journal the journal's name, at one moment.
    fn publish(&mut self) -> Result<()>
        ensures turns { Turns result published half_published (disk self.old) (disk self.new) }
        ensures cause { Tells result (failed self.old) (failed self.new) };

    /// After it, a crash leaves the journal's name leading to what it leads to now.
    fn sync_folder(&mut self) -> Result<()>
        ensures turns { Turns result settled same_state (disk self.old) (disk self.new) }
        ensures cause { Tells result (failed self.old) (failed self.new) };

    /// Takes the new journal away.
    fn clear(&mut self) -> Result<()>
        ensures turns { Turns result cleared same_state (disk self.old) (disk self.new) }
        ensures cause { Tells result (failed self.old) (failed self.new) };

    /// Takes the journal's name away.
    fn remove_journal(&mut self) -> Result<()>
        ensures turns { Turns result unlisted half_unlisted (disk self.old) (disk self.new) }
        ensures cause { Tells result (failed self.old) (failed self.new) };

    /// How many bytes the journal has. `None` where none has the journal's name.
    fn journal_length(&mut self) -> Result<Option<u64>>
        ensures same { disk self.new ≡ disk self.old }
        ensures length { IfOk result (λ found. Known (disk self.old)
            (λ d. IsLong found d.now.journal)) }
        ensures cause { Tells result (failed self.old) (failed self.new) };

    /// Fills the buffer from the journal, from this place on.
    fn read_journal(&mut self, at: u64, buf: &mut [u8]) -> Result<()>
        ensures same { disk self.new ≡ disk self.old }
        ensures bytes { OnOk result ((bytes : List ℕ) → Shows (disk self.old) bytes
            → IsPart at buf.new bytes) }
        ensures cause { Tells result (failed self.old) (failed self.new) };

    /// Writes over bytes of FILE. It is refused where that would make FILE longer.
    fn write_at(&mut self, at: u64, bytes: &[u8]) -> Result<()>
        ensures turns { Turns result (wrote (at, bytes.now)) (write_lost (at, bytes.now))
            (disk self.old) (disk self.new) }
        ensures cause { Tells result (failed self.old) (failed self.new) };

    /// After it, a crash leaves in FILE what was written since the last call of it, or since the
    /// last write or call of it that failed.
    fn sync_file(&mut self) -> Result<()>
        ensures turns { MatchResult result (λ _. Over Flushes (disk self.old) (disk self.new))
            (λ _. Over (May sync_lost) (disk self.old) (disk self.new)) }
        ensures cause { Tells result (failed self.old) (failed self.new) };
}
