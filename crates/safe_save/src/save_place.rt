// Where whole files are saved, one after another.
ghost use Rattle.std.specs.Prelude.{◌≡◌, IfOk, Option, ℕ, List};
ghost use Rattle.safe_save.specs.Places.{IsEmpty, IsEnded};

use std::io::Write;

/// Why a save is not begun.
#[derive(Clone, Copy, Debug, PartialEq, Eq)]
pub enum NotBegun {
    /// There is nowhere to save to.
    NoPlace,
    /// No file can be made there.
    NoFile,
}

/// How a save that was begun ended.
#[derive(Clone, Copy, Debug, PartialEq, Eq)]
pub enum Ended {
    /// The place holds the new bytes, and outlives a power cut with them.
    Saved,
    /// The place is as it was. The new file had taken so many bytes.
    Failed { taken: u64 },
    /// The place holds the new bytes, but a power cut may undo it.
    Unsettled,
    /// The place holds a part of the new bytes, which had so many, or bytes of two files: one that
    /// is written itself, as a pipe, of which no clause says what stands there.
    Torn { taken: u64 },
}

/// A place that takes one save after another, as OUT of a session does. Each is begun, written, and
/// ended; until it is ended the place holds what it held.
pub trait SavePlace {
    /// What stands there, where that is known.
    ghost stands: { Self → Option (List ℕ) };

    /// The writer of one save.
    type Writer: Write + Drop;

    /// Begins a save, whose writer has no bytes yet.
    fn begin(&mut self) -> Result<Self::Writer, NotBegun>
        ensures same { stands self.new ≡ stands self.old }
        ensures empty { IfOk result (λ writer. IsEmpty (stands self.old)
            (Self.Writer.contents writer)) };

    /// Ends a save. Where `is_whole` is false, a write failed or something else did, and the place
    /// keeps what it holds.
    fn end(&mut self, writer: Self::Writer, is_whole: bool) -> Ended
        ensures { IsEnded is_whole (stands self.old) (Self.Writer.contents writer) result
            (stands self.new) };
}
