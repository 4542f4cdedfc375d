// Answers the lines of a session.
ghost use Rattle.std.specs.Prelude.{◌≡◌, ◌≤◌, ℕ, List, true, false};
ghost use Rattle.edit_overlay.specs.Reads.{Follow, HaveAgreed, Reads};
ghost use Rattle.live_volume.specs.Held.{IsReadAs};
ghost use Rattle.line_texts.specs.Devices.{device_of};
ghost use Rattle.script_text.specs.Replies.{Printed};
ghost use Rattle.script_words.specs.SessionWords.{session_word_of};
ghost use Rattle.script_run.specs.Causes.{meanwhile, read_meanwhile};
ghost use Rattle.script_run.specs.Input.{Holds, Held, IsLostWithCause, line_of};
ghost use Rattle.script_run.specs.Runs.{HasTraces, Prints};
ghost use Rattle.script_run.specs.Sessions.{standing, AnswerStep, SessionStep, WordStep};
ghost use Rattle.script_run.specs.declared.session_lines.SessionLines.TheVariants.{Script, Whole};
ghost use Rattle.script_run.specs.SessionLineRuns.{AnswersTo};
ghost use Rattle.script_run.specs.Telling.{IsWritten};

use crate::held_line::HeldLine;
use crate::line_input::next_line;
use crate::line_read::LineRead;
use crate::next::Next;
use crate::read_ahead::ReadAhead;
use crate::running::run_line;
use crate::saves::Saves;
use crate::session_lines::SessionLines;
use crate::told::{Told, write_reply};
use bench_core::Bench;
use device_io::{Sink, Source, WriteFault};
use line_texts::OutBuffer;
use refusal_texts::{ScriptFault, SessionFault};
use room::Room;
use script_text::Reply;
use script_words::{LineFault, SessionWord, session_word, strip_return};
use std::io::{Read, Write};

/// Answers the lines of the reader in order, and writes the whole answer to each, with an empty
/// line behind it, before the next is read.
pub(crate) fn answer_lines<S: Read, A: Write, P: Saves>(
    room: &mut Room,
    bench: &mut Bench,
    script: &mut Source<S>,
    answers: &mut Sink<A>,
    place: &mut P,
    stop: bool,
) -> SessionLines
    ensures lines { HaveAgreed bench.new.reads →
        AnswersTo (meanwhile room.old bench.old.reads room.new bench.new.reads)
        (standing bench.old.state (P.place place.old bench.old.loaded))
        (standing bench.new.state (P.place place.new bench.new.loaded)) stop
        (device_of S.remaining script.old) (device_of S.remaining script.new)
        (device_of A.contents answers.old) (device_of A.contents answers.new) result }
    ensures same { IsReadAs bench.old.state bench.new.state }
    ensures reads { Follow bench.old.reads bench.new.reads }
    ensures loaded { bench.new.loaded ≡ bench.old.loaded }
    ensures never_falls { room.old ≤ room.new }
{
    let mut ahead = ReadAhead::new();
    let mut line = HeldLine::new(room.alloc());
    let mut out = OutBuffer::new();
    let mut refused = 0u64;
    let mut written = 0u64;
    'lines: for number in 0..u64::MAX {
        let has_end = match next_line(room, &mut ahead, script, &mut line) {
            Next::Line { has_end } => has_end,
            Next::End => return whole(refused),
            Next::Failed => return broken(ScriptFault::ReadFailed, written),
            Next::Endless => return broken(ScriptFault::TooLarge, written),
        };
        match answer(room, bench, place, &line, has_end, &mut out, answers) {
            Ok(told) => {
                written = written.saturating_add(told.length);
                if told.is_refusal {
                    if stop {
                        return SessionLines::Stopped { line: number + 1 };
                    }
                    refused += 1;
                }
                if !has_end {
                    return cut_short(refused);
                }
            }
            Err(fault) => {
                return SessionLines::Answers {
                    written: written.saturating_add(fault.written),
                };
            }
        }
    }
    broken(ScriptFault::TooLarge, written)
}

fn whole(refused: u64) -> SessionLines
    ensures { result ≡ Whole refused false }
{
    SessionLines::Whole {
        refused,
        is_cut_off: false,
    }
}

fn cut_short(refused: u64) -> SessionLines
    ensures { result ≡ Whole refused true }
{
    SessionLines::Whole {
        refused,
        is_cut_off: true,
    }
}

fn broken(fault: ScriptFault, written: u64) -> SessionLines
    ensures { result ≡ Script fault written }
{
    SessionLines::Script { fault, written }
}

// Answers one line, and writes the answer with an empty line behind it.
fn answer<A: Write, P: Saves>(
    room: &mut Room,
    bench: &mut Bench,
    place: &mut P,
    line: &HeldLine,
    has_end: bool,
    out: &mut OutBuffer,
    answers: &mut Sink<A>,
) -> Result<Told, WriteFault>
    ensures line { HaveAgreed bench.new.reads → (printed : Printed)
        × ((text : List ℕ) → Holds line.now text →
        (first : ℕ) → first ≤ room.old → IsLostWithCause line.now first room.old →
        SessionStep (meanwhile first bench.old.reads room.new bench.new.reads)
        (standing bench.old.state (P.place place.old bench.old.loaded))
        (line_of text has_end) printed
        (standing bench.new.state (P.place place.new bench.new.loaded)))
        × IsWritten (device_of A.contents answers.old) (device_of A.contents answers.new)
        printed result }
    ensures same { IsReadAs bench.old.state bench.new.state }
    ensures reads { Follow bench.old.reads bench.new.reads }
    ensures loaded { bench.new.loaded ≡ bench.old.loaded }
    ensures never_falls { room.old ≤ room.new }
{
    let reply = reply_to(room, bench, place, line, has_end);
    write_reply(bench, out, answers, &reply, b"\n")
}

// The reply to one line. The last one, where it lacks its line feed, is not run.
fn reply_to<P: Saves>(
    room: &mut Room,
    bench: &mut Bench,
    place: &mut P,
    line: &HeldLine,
    has_end: bool,
) -> Reply
    ensures step { HaveAgreed bench.new.reads → (printed : Printed) (reads : Reads) →
        bench.new.reads.failures ≤ reads.failures →
        Prints (read_meanwhile bench.new.reads reads) bench.new.state result printed →
        (text : List ℕ) → Holds line.now text →
        (first : ℕ) → first ≤ room.old → IsLostWithCause line.now first room.old →
        AnswerStep (meanwhile first bench.old.reads room.new reads)
        (standing bench.old.state (P.place place.old bench.old.loaded))
        (line_of text has_end)
        printed (standing bench.new.state (P.place place.new bench.new.loaded)) }
    ensures there { HaveAgreed bench.new.reads → HasTraces bench.new.state result }
    ensures same { IsReadAs bench.old.state bench.new.state }
    ensures reads { Follow bench.old.reads bench.new.reads }
    ensures loaded { bench.new.loaded ≡ bench.old.loaded }
    ensures never_falls { room.old ≤ room.new }
{
    match line.read() {
        LineRead::TooLarge => Reply::Fault(LineFault::TooLarge),
        LineRead::Text if !has_end => Reply::Session(Err(SessionFault::CutOff)),
        LineRead::Lost if !has_end => Reply::Session(Err(SessionFault::CutOff)),
        LineRead::Text => reply_to_text(room, bench, place, strip_return(line.bytes())),
        LineRead::Lost => Reply::Fault(LineFault::OutOfMemory),
    }
}

// The reply to a line that was read whole.
fn reply_to_text<P: Saves>(room: &mut Room, bench: &mut Bench, place: &mut P, line: &[u8]) -> Reply
    ensures step { HaveAgreed bench.new.reads → (printed : Printed) (reads : Reads) →
        bench.new.reads.failures ≤ reads.failures →
        Prints (read_meanwhile bench.new.reads reads) bench.new.state result printed →
        WordStep (meanwhile room.old bench.old.reads room.new reads) (session_word_of line.now)
        (standing bench.old.state (P.place place.old bench.old.loaded)) line.now
        printed (standing bench.new.state (P.place place.new bench.new.loaded)) }
    ensures there { HaveAgreed bench.new.reads → HasTraces bench.new.state result }
    ensures same { IsReadAs bench.old.state bench.new.state }
    ensures reads { Follow bench.old.reads bench.new.reads }
    ensures loaded { bench.new.loaded ≡ bench.old.loaded }
    ensures never_falls { room.old ≤ room.new }
{
    match session_word(line) {
        SessionWord::Save => Reply::Session(place.save(room, bench)),
        SessionWord::SaveWithMore => Reply::Fault(LineFault::Words),
        SessionWord::Other => run_line(room, bench, line),
    }
}
