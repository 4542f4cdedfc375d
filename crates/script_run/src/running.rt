// Runs the lines of a script over a volume.
ghost use Rattle.std.specs.Prelude.{◌≡◌, ◌⊎◌, ◌≤◌, ◌+◌, ◌++◌, ℕ, length, IsOk, IsTrue, MatchResult, None, Ok};
ghost use Rattle.edit_overlay.specs.CountedVolume.{RisesAtMost};
ghost use Rattle.edit_overlay.specs.Reads.{Follow, HaveAgreed, Reads};
ghost use Rattle.room.specs.Refusals.{WasRefused};
ghost use Rattle.frame_cut.specs.Traces.{count_of};
ghost use Rattle.bench_rules.specs.Conditions.{AreRising};
ghost use Rattle.bench_rules.specs.declared.answer.Answer.TheVariants as answers;
ghost use Rattle.bench_rules.specs.declared.section.Section.{Section};
ghost use Rattle.bench_rules.specs.State.{State};
ghost use Rattle.live_volume.specs.Held.{IsReadAs};
ghost use Rattle.line_texts.specs.Devices.{device_of};
ghost use Rattle.script_run.specs.Telling.{IsWritten};
ghost use Rattle.script_run.specs.LineRuns.{RunsLines};
ghost use Rattle.script_run.specs.LineLooks.{command_looks, held_rows, line_looks, after_looks, LooksOfLines};
ghost use Rattle.script_run.specs.Causes.{meanwhile, read_meanwhile};
ghost use Rattle.script_text.specs.Replies.{Printed};
ghost use Rattle.script_run.specs.Runs.{LineStep, CommandStep, HasTraces, IsPrintedBy, IsPrintedOf, Prints, asks_for_section as asks_for_section_of, section_in, asks_for_stats as asks_for_stats_of, floats_asked, tells_samples as tells_samples_of};
ghost use Rattle.script_words.specs.declared.command.Command.TheVariants.{Ask};
ghost use Rattle.script_words.specs.Words.{script_lines};

use crate::lines_end::LinesEnd;
use crate::told::{Told, write_reply};
use bench_core::Bench;
use bench_rules::{Answer, AskFault, ChosenQuery, Query};
use device_io::{Sink, WriteFault};
use float_codes::FloatFormat;
use line_texts::OutBuffer;
use room::Room;
use script_hints::{Fault, Notes, fault_of};
use script_text::Reply;
use script_words::{Command, Lines, parse_line};
use shown_floats::shown;
use std::io::Write;

/// Runs the lines in order, and writes the whole reply to each before the next is run, a short one
/// at once. The refused lines are noted.
pub(crate) fn run_lines<A: Write>(
    room: &mut Room,
    bench: &mut Bench,
    script: &[u8],
    answers: &mut Sink<A>,
    stop: bool,
    notes: &mut Notes,
) -> LinesEnd
    requires { length script.now ≤ 16777216 }
    ensures lines { HaveAgreed bench.new.reads →
        RunsLines (meanwhile room.old bench.old.reads room.new bench.new.reads)
        bench.old.state bench.new.state script.now stop (device_of A.contents answers.old)
        (device_of A.contents answers.new) result }
    ensures same { IsReadAs bench.old.state bench.new.state }
    ensures reads { Follow bench.old.reads bench.new.reads }
    ensures loaded { bench.new.loaded ≡ bench.old.loaded }
    ensures looks { HaveAgreed bench.new.reads → LooksOfLines (device_of A.contents answers.old)
        (device_of A.contents answers.new) (after_looks bench.old.state bench.old.looks)
        (script_lines script.now) (after_looks bench.new.state bench.new.looks) }
    ensures never_falls { room.old ≤ room.new }
{
    let mut lines = Lines::new(script);
    let mut out = OutBuffer::new();
    let mut number = 0u64;
    let mut refused = 0u64;
    let mut written = 0u64;
    'lines: while let Some(line) = lines.next() {
        number += 1;
        match answer_line(room, bench, line, &mut out, answers, number, notes) {
            Ok(told) => {
                written = written.saturating_add(told.length);
                if told.is_refusal {
                    if stop {
                        return LinesEnd::Stopped { line: number };
                    }
                    refused += 1;
                }
            }
            Err(fault) => {
                return LinesEnd::Answers {
                    written: written.saturating_add(fault.written),
                };
            }
        }
    }
    LinesEnd::Whole { refused }
}

/// Runs one line of a script, and writes its whole answer, as [`run`](crate::run) does with each of
/// its lines. What waits in `out` is dropped first. Of a file on disk all that is said of it holds
/// where each read until its end gave the bytes of the load, whatever those behind it give: the
/// answer is then right. It is never E15; it is E14, or ends with it, only where a read failed in
/// this call, and E11 only where a growth was refused in it. A refused line is noted under its
/// number, which counts from 1. Looks at no more traces than `line_looks`, its definition, says;
/// which slices are kept behind it is not told. Refused: where the answers failed. Takes memory as
/// the line does.
pub fn answer_line<A: Write>(
    room: &mut Room,
    bench: &mut Bench,
    line: &[u8],
    out: &mut OutBuffer,
    answers: &mut Sink<A>,
    number: u64,
    notes: &mut Notes,
) -> Result<Told, WriteFault>
    ensures line { let old = device_of A.contents answers.old in
        let new = device_of A.contents answers.new in
        HaveAgreed bench.new.reads → (printed : Printed)
        × LineStep (meanwhile room.old bench.old.reads room.new bench.new.reads)
        bench.old.state line.now printed bench.new.state
        × IsWritten old new printed result }
    ensures same { IsReadAs bench.old.state bench.new.state }
    ensures reads { Follow bench.old.reads bench.new.reads }
    ensures loaded { bench.new.loaded ≡ bench.old.loaded }
    ensures looks { HaveAgreed bench.new.reads → RisesAtMost bench.old.looks bench.new.looks
        (line_looks bench.old.state bench.old.kept line.now) }
    ensures never_falls { room.old ≤ room.new }
{
    let reply = run_line(room, bench, line);
    if let Some(fault) = fault_of(&reply) {
        notes.keep(number, line, fault);
    }
    let told = write_reply(bench, out, answers, &reply, b"");
    note_broken(notes, number, line, &told);
    told
}

// Notes the line where its section ended in front of its last row.
fn note_broken(notes: &mut Notes, number: u64, line: &[u8], told: &Result<Told, WriteFault>) {
    if let Ok(
        Told {
            broken_by: Some(fault),
            ..
        },
    ) = told
    {
        notes.keep(number, line, Fault::Query(*fault));
    }
}

/// Runs one line. The traces of a section are looked at while it is written: `reads` is what is
/// known of the reads when that is done.
pub(crate) fn run_line(room: &mut Room, bench: &mut Bench, line: &[u8]) -> Reply
    ensures step { HaveAgreed bench.new.reads → (printed : Printed) (reads : Reads) →
        bench.new.reads.failures ≤ reads.failures →
        Prints (read_meanwhile bench.new.reads reads) bench.new.state result printed →
        LineStep (meanwhile room.old bench.old.reads room.new reads)
        bench.old.state line.now printed bench.new.state }
    ensures there { HaveAgreed bench.new.reads → HasTraces bench.new.state result }
    ensures same { IsReadAs bench.old.state bench.new.state }
    ensures reads { Follow bench.old.reads bench.new.reads }
    ensures loaded { bench.new.loaded ≡ bench.old.loaded }
    ensures looks { HaveAgreed bench.new.reads → bench.new.looks + held_rows result
        ≤ bench.old.looks + line_looks bench.old.state bench.old.kept line.now }
    ensures no_fewer { bench.old.looks ≤ bench.new.looks }
    ensures never_falls { room.old ≤ room.new }
{
    let traces = bench.volume().count();
    match parse_line(room, bench.float_format(), traces, line) {
        Ok(None) => Reply::Silent,
        Ok(Some(command)) => run_command(room, bench, &command),
        Err(fault) => Reply::Fault(fault),
    }
}

fn run_command(room: &mut Room, bench: &mut Bench, command: &Command) -> Reply
    ensures step { HaveAgreed bench.new.reads → (printed : Printed) (reads : Reads) →
        bench.new.reads.failures ≤ reads.failures →
        Prints (read_meanwhile bench.new.reads reads) bench.new.state result printed →
        CommandStep (meanwhile room.old bench.old.reads room.new reads)
        bench.old.state command.now printed bench.new.state }
    ensures there { HaveAgreed bench.new.reads → HasTraces bench.new.state result }
    ensures same { IsReadAs bench.old.state bench.new.state }
    ensures reads { Follow bench.old.reads bench.new.reads }
    ensures loaded { bench.new.loaded ≡ bench.old.loaded }
    ensures looks { HaveAgreed bench.new.reads → bench.new.looks + held_rows result
        ≤ bench.old.looks + command_looks bench.old.state bench.old.kept command.now }
    ensures no_fewer { bench.old.looks ≤ bench.new.looks }
    ensures never_falls { room.old ≤ room.new }
{
    match command {
        Command::Apply(edit) => Reply::Edited(bench.apply(room, edit)),
        Command::Ask(query) => answered(room, bench, query),
    }
}

// The reply to a query. Where it tells of samples that are floats, it has their words.
fn answered(room: &mut Room, bench: &mut Bench, query: &Query) -> Reply
    ensures step { HaveAgreed bench.new.reads → (printed : Printed) (reads : Reads) →
        bench.new.reads.failures ≤ reads.failures →
        Prints (read_meanwhile bench.new.reads reads) bench.new.state result printed →
        CommandStep (meanwhile room.old bench.old.reads room.new reads)
        bench.old.state (Ask query.now) printed bench.new.state }
    ensures there { HaveAgreed bench.new.reads → HasTraces bench.new.state result }
    ensures same { IsReadAs bench.old.state bench.new.state }
    ensures reads { Follow bench.old.reads bench.new.reads }
    ensures loaded { bench.new.loaded ≡ bench.old.loaded }
    ensures looks { HaveAgreed bench.new.reads → bench.new.looks + held_rows result
        ≤ bench.old.looks + command_looks bench.old.state bench.old.kept (Ask query.now) }
    ensures no_fewer { bench.old.looks ≤ bench.new.looks }
    ensures never_falls { room.old ≤ room.new }
{
    if asks_for_section(query) {
        return section_reply(bench.ask(room, query));
    }
    let floats = floats_of(bench, query);
    let reply = bench.ask(room, query);
    shown_reply(room, floats, reply)
}

// Whether the query is for a section.
fn asks_for_section(query: &Query) -> bool
    ensures { result ≡ asks_for_section_of query.now }
{
    matches!(query, Query::OfChosen(_chosen, ChosenQuery::Samples(_)))
}

// The reply to a query for a section, whose samples are looked at while it is written.
fn section_reply(reply: Result<Answer, AskFault>) -> Reply
    ensures printed { (s : State) (before now : Reads) (printed : Printed) →
        Prints (read_meanwhile before now) s result printed →
        IsPrintedBy (read_meanwhile before now) s (section_in reply) None reply printed }
    ensures there { (s : State) → ((section : Section) → reply ≡ Ok (answers.Section section) →
        AreRising 1 (count_of s.volume) section.traces) → HasTraces s result }
    ensures rows { (held_rows result ≡ 0) ⊎ ((section : Section)
        × (reply ≡ Ok (answers.Section section))
        × (held_rows result ≡ length section.traces)) }
{
    match reply {
        Ok(Answer::Section(section)) => Reply::Section(section),
        _ => Reply::Asked(reply),
    }
}

// The format of the samples that the answer tells of, where they are floats.
fn floats_of(bench: &Bench, query: &Query) -> Option<FloatFormat>
    ensures { result ≡ floats_asked bench.now.state query.now }
{
    if tells_samples(query) {
        bench.float_format()
    } else {
        None
    }
}

// Whether the answer to the query tells of samples; a section tells of none itself.
fn tells_samples(query: &Query) -> bool
    ensures { result ≡ tells_samples_of query.now }
{
    match query {
        Query::Sample(..) | Query::Stat(_) | Query::Totals | Query::Slice(_) | Query::Problems =>
            true,
        Query::OfChosen(_chosen, asked) => asks_for_stats(asked),
        _ => false,
    }
}

// Whether the statistics of the samples of chosen traces are asked for.
fn asks_for_stats(query: &ChosenQuery) -> bool
    ensures { result ≡ asks_for_stats_of query.now }
{
    matches!(query, ChosenQuery::Stats)
}

// What is printed for the reply to a query.
fn shown_reply(
    room: &mut Room,
    floats: Option<FloatFormat>,
    reply: Result<Answer, AskFault>,
) -> Reply
    ensures printed { (s : State) (before now : Reads) (printed : Printed) →
        Prints (read_meanwhile before now) s result printed →
        IsPrintedOf floats reply printed }
    ensures there { (s : State) → HasTraces s result }
    ensures rows { held_rows result ≡ 0 }

    // An answer is refused only where there was no memory for its words.
    ensures words { (s : State) (before now : Reads) (printed : Printed) →
        Prints (read_meanwhile before now) s result printed → IsOk reply →
        IsTrue printed.is_refusal → WasRefused room.old room.new }
    ensures never_falls { room.old ≤ room.new }
{
    let Some(format) = floats else {
        return Reply::Asked(reply);
    };
    match reply {
        Err(fault) => Reply::Asked(Err(fault)),
        Ok(answer) => match shown(room, format, &answer) {
            Ok(Some(shown)) => Reply::Floats(shown),
            Ok(None) => Reply::Asked(Ok(answer)),
            Err(_) => Reply::Asked(Err(AskFault::OutOfMemory)),
        },
    }
}
