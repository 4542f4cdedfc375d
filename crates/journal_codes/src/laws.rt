// What was written is read again.
ghost use Rattle.std.specs.Prelude.{List};
ghost use Rattle.journal_codes.specs.Codes.{Span, AllFit, AreSmall, IsReadAgain};
ghost use Rattle.journal_codes.specs.declared.file_facts.FileFacts.{FileFacts};

/// A law, with nothing to run: a journal of pieces of at most `PIECE_ROOM` bytes inside FILE is
/// taken, and lists these pieces.
pub fn what_is_listed_is_read()
    ensures { (f : FileFacts) (ss : List Span) → AreSmall f → AllFit f ss → IsReadAgain f ss }
{}
