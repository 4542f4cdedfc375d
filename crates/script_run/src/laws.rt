// What holds of lines, as contracts of calls that do nothing.
ghost use Rattle.script_run.specs.Laws.{LinesAreEdits, LinesFromScratch, OutIsLastSave, ReloadsAsSaved, SessionIsRun};

use bench_laws::{answers_from_scratch, steps_stay_cut};

/// What the lines of a script do to a volume is what their edits do, one after another, each with
/// the reply that is printed for its line.
pub fn lines_are_edits()
    ensures { LinesAreEdits }
{}

/// The headline, over lines. Each line prints what a load of the bytes that a save before it writes
/// answers, under the reading and limits of the first load and the field map in force, and leaves
/// the bytes that a save behind it writes.
pub fn lines_from_scratch()
    ensures { LinesFromScratch }
{
    steps_stay_cut();
}

/// The bytes that are saved behind the lines are a file that is accepted, and a load of them holds
/// the volume that was saved; so, under the same field map, every query has the answer that it had
/// before the save.
pub fn reloads_as_saved()
    ensures { ReloadsAsSaved }
{
    steps_stay_cut();
    answers_from_scratch();
}

/// A session of lines of a script answers as a run of the same lines does, with an empty line
/// behind each answer, where memory was never refused, and saves nothing.
pub fn session_is_run()
    ensures { SessionIsRun }
{}

/// Behind lines none of which was answered as a save, OUT is what it was.
pub fn out_is_last_save()
    ensures { OutIsLastSave }
{}
