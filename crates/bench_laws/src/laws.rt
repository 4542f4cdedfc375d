// What holds of edits, as contracts of calls that do nothing.
ghost use Rattle.bench_laws.specs.EditLaws.{StaysCut, StepsStayCut, AnswersFromScratch, RepliesFromScratch, ReadsWhatWasSet, SetLeavesTheRest};

/// A file that is cut is cut again, under the same reading and limits and with the same head, after
/// any edit that is not refused: an accepted edit leaves a file that loads again.
pub fn stays_cut()
    ensures { StaysCut }
{}

/// After any list of edits, each done or refused, the parts that are held are what reading their
/// bytes from scratch gives, under the same reading and limits and with the same head. A refused
/// edit, also one whose read failed, changes nothing.
pub fn steps_stay_cut()
    ensures { StepsStayCut }
{}

/// The headline. After any list of edits, each done or refused, every answer, each report among
/// them, is the one that reading the new bytes from scratch gives: of any cut of them under the
/// reading and the limits of the load, and under the field map in force, with the bytes in memory
/// or on disk.
pub fn answers_from_scratch()
    ensures { AnswersFromScratch }
{}

/// Whatever a query is told then, it may be told of what reading the new bytes from scratch gives:
/// that answer, or want of memory where the answer takes it, or E14 or E15 where the bytes are on
/// disk and the answer needs traces.
pub fn replies_from_scratch()
    ensures { RepliesFromScratch }
{}

/// The value of a field after a set that is not refused is the value that was set, in what reading
/// the new bytes from scratch gives.
pub fn reads_what_was_set()
    ensures { ReadsWhatWasSet }
{}

/// A set that is not refused leaves the head, the textual header, the binary header, the extended
/// textual headers, the data trailer records and every other trace as they were.
pub fn set_leaves_the_rest()
    ensures { SetLeavesTheRest }
{}
