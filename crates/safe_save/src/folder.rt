// A folder with the file OUT, as one save sees it.
ghost use Rattle.std.specs.Prelude.{◌≡◌, ◌⊎◌, Option, MatchResult, option_map};
ghost use Rattle.std.specs.Io.{WritesAtMost};
ghost use Rattle.safe_save.specs.Disk.{Disk, created, takes, with_mode, synced_all, renamed, removed, settled, fails, loses, half_renamed, unsettles, sticks, Turns};
ghost use Rattle.safe_save.specs.declared.save_error.Step.TheVariants as steps;

use std::io::Result;

/// One folder, with the name OUT in it and a new name beside it. The file under the new name takes
/// bytes from `create` until `sync` or `remove`.
pub trait Folder {
    /// What OUT and the new name lead to, where it is known, and what a crash leaves.
    ghost disk: { Self → Option Disk };

    /// Makes the new file, under a name that no file had.
    fn create(&mut self) -> Result<()>
        ensures { Turns result created (fails steps.Create) (disk self.old) (disk self.new) };

    /// Writes some of the bytes, the first ones, behind those that the new file has. An `Err` has
    /// written none. One that takes none of some bytes counts as a failure too.
    fn write(&mut self, bytes: &[u8]) -> Result<usize>
        ensures bound { WritesAtMost result bytes.now }
        ensures bytes { MatchResult result
            (λ n. disk self.new ≡ option_map (takes n bytes.now) (disk self.old))
            (λ _. disk self.new ≡ option_map (loses steps.Write) (disk self.old)) };

    /// Gives the new file a mode, and the owner that OUT has.
    fn set_mode(&mut self, mode: u32) -> Result<()>
        ensures { Turns result (with_mode mode) (loses steps.SetMode)
            (disk self.old) (disk self.new) };

    /// After it, a crash leaves of the new file all that was written and set. No more is written.
    fn sync(&mut self) -> Result<()>
        ensures { Turns result synced_all (loses steps.Sync) (disk self.old) (disk self.new) };

    /// Lets OUT lead to the new file, at one moment. An `Err` leaves both names as they were, but a
    /// crash may leave it done.
    fn rename(&mut self) -> Result<()>
        ensures { MatchResult result
            (λ _. disk self.new ≡ option_map renamed (disk self.old))
            (λ _. (disk self.new ≡ option_map (fails steps.Rename) (disk self.old))
            ⊎ (disk self.new ≡ option_map half_renamed (disk self.old))) };

    /// Takes the new file away.
    fn remove(&mut self) -> Result<()>
        ensures { Turns result removed sticks (disk self.old) (disk self.new) };

    /// After it, a crash leaves OUT leading to what it leads to now.
    fn sync_folder(&mut self) -> Result<()>
        ensures { Turns result settled unsettles (disk self.old) (disk self.new) };
}
