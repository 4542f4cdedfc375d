// The next line of a reader.
ghost use Rattle.std.specs.Prelude.{◌≤◌, OnOk, IfOk};
ghost use Rattle.device_io.specs.Failures.{CountsFailure};
ghost use Rattle.script_run.specs.Input.{left_of, IsLostWithCause, KeepsTaken, WaitsOrEnds};
ghost use Rattle.script_run.specs.NextLine.{IsNext, FailuresAfterNext};

use crate::held_line::HeldLine;
use crate::next::Next;
use crate::read_ahead::ReadAhead;
use device_io::{Failed, Source};
use room::Room;
use std::io::Read;

/// Reads the next line, without its line feed, as far as memory holds it, and tells whether it has
/// one. Reads only where nothing is read ahead.
pub(crate) fn next_line<S: Read>(
    room: &mut Room,
    ahead: &mut ReadAhead,
    source: &mut Source<S>,
    line: &mut HeldLine,
) -> Next
    ensures next { IsNext (left_of ahead.old (S.remaining source.old.inner))
        (left_of ahead.new (S.remaining source.new.inner)) line.new result }
    ensures failures { FailuresAfterNext result source.old.failures source.new.failures }
    ensures lost { IsLostWithCause line.new room.old room.new }
    ensures never_falls { room.old ≤ room.new }
{
    line.clear();
    'parts: for _ in 0..u64::MAX {
        match has_more(ahead, source) {
            Ok(true) => {}
            Ok(false) if line.is_empty() => return Next::End,
            Ok(false) => return Next::Line { has_end: false },
            Err(_) => return Next::Failed,
        }
        if ahead.take_part(room, line) {
            return Next::Line { has_end: true };
        }
    }
    Next::Endless
}

// Whether a byte is left: one that waits, or one that one read gives.
fn has_more<S: Read>(ahead: &mut ReadAhead, source: &mut Source<S>) -> Result<bool, Failed>
    ensures kept { OnOk result (KeepsTaken (left_of ahead.old (S.remaining source.old.inner))
        (left_of ahead.new (S.remaining source.new.inner))) }
    ensures more { IfOk result
        (λ some. WaitsOrEnds some ahead.new (S.remaining source.new.inner)) }
    ensures failures { CountsFailure result source.old.failures source.new.failures }
{
    if !ahead.is_empty() {
        return Ok(true);
    }
    ahead.fill(source)?;
    Ok(!ahead.is_empty())
}
