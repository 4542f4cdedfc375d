// The commands on the headers of traces.
ghost use Rattle.std.specs.Prelude.{◌≡◌, bytes_eq, is_some, IsErrOf, IfErr, ◌≢◌};
ghost use Rattle.std.specs.Map.{lookup};
ghost use Rattle.room.specs.Refusals.{Rises};
ghost use Rattle.script_words.specs.Words.{words_of};
ghost use Rattle.script_words.specs.Readers.{fields_of};
ghost use Rattle.script_words.specs.Ranges.{spelled};
ghost use Rattle.script_words.specs.HeaderCommands.{read_table, read_find, read_header, read_extremes};
ghost use Rattle.script_words.specs.RangeCommands.{header_commands};
ghost use Rattle.script_words.specs.Commands.{read_by, IsListRead, IsRead};

use crate::command::Command;
use crate::fields::{field, is_field};
use crate::line_fault::LineFault;
use crate::numbers::{number, trace};
use crate::parse::{one, range_alone, range_and_three};
use crate::range_command::RangeCommand;
use crate::ranges::{ranged, sort};
use crate::report_commands::report;
use crate::words::{Words, number_of_words};
use bench_rules::{Field, Items, Query};
use float_codes::FloatFormat;
use room::Room;

// The command of such a word and of the words behind it, or that of a report; S01 for any other.
pub(crate) fn of_headers(
    room: &mut Room,
    floats: Option<FloatFormat>,
    traces: u32,
    word: &str,
    words: Words,
) -> Result<Command, LineFault>
    ensures read { IsRead (read_by (lookup (bytes_eq word.now) (header_commands floats traces))
        (words_of words.entry)) result }
    ensures memory { Rises (IsErrOf result LineFault.OutOfMemory) room.old room.new }
{
    match word {
        "table" => ranged(room, floats, traces, RangeCommand::Table, words),
        "find" => ranged(room, floats, traces, RangeCommand::Find, words),
        "extremes" => ranged(room, floats, traces, RangeCommand::Extremes, words),
        "set" => ranged(room, floats, traces, RangeCommand::Set, words),
        "renumber" => ranged(room, floats, traces, RangeCommand::Renumber, words),
        "compute" => ranged(room, floats, traces, RangeCommand::Compute, words),
        "delete" => ranged(room, floats, traces, RangeCommand::Delete, words),
        "count" => ranged(room, floats, traces, RangeCommand::Count, words),
        "stats" => ranged(room, floats, traces, RangeCommand::Stats, words),
        "samples" => ranged(room, floats, traces, RangeCommand::Samples, words),
        "swap" => ranged(room, floats, traces, RangeCommand::Swap, words),
        "sort" => sort(room, traces, words),
        "header" => header(traces, words),
        _ => report(traces, word, words),
    }
}

pub(crate) fn table(room: &mut Room, traces: u32, mut words: Words) -> Result<Command, LineFault>
    ensures read { IsRead (read_table traces (spelled (words_of words.entry))) result }
    ensures memory { Rises (IsErrOf result LineFault.OutOfMemory) room.old room.new }
{
    let (a, b) = words.range().ok_or(LineFault::Words)?;
    let rest = words.rest();
    let count = number_of_words(rest, 65);
    if count == 0 || count == 65 {
        return Err(LineFault::Words);
    }
    let a = trace(traces, a).ok_or(LineFault::Number)?;
    let b = trace(traces, b).ok_or(LineFault::Number)?;
    let fields = fields(room, rest)?;
    Ok(Command::Ask(Query::Table(a, b, fields)))
}

pub(crate) fn find(room: &mut Room, traces: u32, words: Words) -> Result<Command, LineFault>
    ensures read { IsRead (read_find traces (spelled (words_of words.entry))) result }
    ensures memory { Rises (IsErrOf result LineFault.OutOfMemory) room.old room.new }
{
    let (a, b, at, low, high) = range_and_three(words).ok_or(LineFault::Words)?;
    let a = trace(traces, a).ok_or(LineFault::Number)?;
    let b = trace(traces, b).ok_or(LineFault::Number)?;
    let low = number(low).ok_or(LineFault::Number)?;
    let high = number(high).ok_or(LineFault::Number)?;
    let at = field(room, at)?;
    Ok(Command::Ask(Query::Find(a, b, at, low, high)))
}

fn header(traces: u32, words: Words) -> Result<Command, LineFault>
    ensures read { result ≡ read_header traces (words_of words.entry) }
    ensures other { IfErr result (λ fault. fault ≢ LineFault.OutOfMemory) }
{
    let p = one(words).ok_or(LineFault::Words)?;
    let p = trace(traces, p).ok_or(LineFault::Number)?;
    Ok(Command::Ask(Query::Header(p)))
}

pub(crate) fn extremes(traces: u32, words: Words) -> Result<Command, LineFault>
    ensures read { result ≡ read_extremes traces (spelled (words_of words.entry)) }
    ensures other { IfErr result (λ fault. fault ≢ LineFault.OutOfMemory) }
{
    let (a, b) = range_alone(words).ok_or(LineFault::Words)?;
    let a = trace(traces, a).ok_or(LineFault::Number)?;
    let b = trace(traces, b).ok_or(LineFault::Number)?;
    Ok(Command::Ask(Query::Extremes(a, b)))
}

// Whether each word of the text is a field.
fn are_fields(text: &str) -> bool
    ensures { result ≡ is_some (fields_of (words_of text.now)) }
{
    let mut words = Words::new(text);
    'words: while let Some(word) = words.next() {
        if !is_field(word) {
            return false;
        }
    }
    true
}

// The fields that the words of the text are. Takes memory. S03 where a word is no field, else E11.
fn fields(room: &mut Room, text: &str) -> Result<Items<Field>, LineFault>
    ensures read { IsListRead (fields_of (words_of text.now)) result }
    ensures memory { Rises (IsErrOf result LineFault.OutOfMemory) room.old room.new }
{
    // S03 of any word comes before E11.
    if !are_fields(text) {
        return Err(LineFault::Number);
    }
    let mut fields = Vec::new(room.alloc());
    let mut words = Words::new(text);
    'words: while let Some(word) = words.next() {
        let at = field(room, word)?;
        let Ok(()) = room.told_back(fields.push(at)) else {
            return Err(LineFault::OutOfMemory);
        };
    }
    Ok(Items::new(fields))
}
