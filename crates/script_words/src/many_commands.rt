// The commands that set a field or samples of many traces, delete them, count them or ask what
// their samples say: `all` stands for the two words of their range.
ghost use Rattle.std.specs.Prelude.{◌≡◌, IsErrOf, IfErr, ◌≢◌};
ghost use Rattle.room.specs.Refusals.{Rises};
ghost use Rattle.script_words.specs.Words.{words_of};
ghost use Rattle.script_words.specs.Ranges.{spelled};
ghost use Rattle.script_words.specs.RangeCommands.{read_set_one, read_set_each, read_renumber, read_delete_one, read_delete_each, read_count_each, read_stats_each, read_fill};
ghost use Rattle.script_words.specs.Commands.{IsRead};

use crate::command::Command;
use crate::fields::field;
use crate::line_fault::LineFault;
use crate::numbers::{number, position, sample, trace};
use crate::parse::{one, range_alone, range_and_three, range_and_two, three};
use crate::words::Words;
use bench_rules::{Chosen, ChosenEdit, ChosenQuery, Edit, Items, Query};
use float_codes::FloatFormat;
use room::Room;
use std::alloc::Global;

pub(crate) fn set_one(room: &mut Room, traces: u32, words: Words) -> Result<Command, LineFault>
    ensures read { IsRead (read_set_one traces (words_of words.entry)) result }
    ensures memory { Rises (IsErrOf result LineFault.OutOfMemory) room.old room.new }
{
    let (p, at, value) = three(words).ok_or(LineFault::Words)?;
    let p = trace(traces, p).ok_or(LineFault::Number)?;
    let value = number(value).ok_or(LineFault::Number)?;
    let at = field(room, at)?;
    Ok(Command::Apply(Edit::Set(p, at, value)))
}

pub(crate) fn renumber(room: &mut Room, traces: u32, words: Words) -> Result<Command, LineFault>
    ensures read { IsRead (read_renumber traces (spelled (words_of words.entry))) result }
    ensures memory { Rises (IsErrOf result LineFault.OutOfMemory) room.old room.new }
{
    let (a, b, at, first, step) = range_and_three(words).ok_or(LineFault::Words)?;
    let a = trace(traces, a).ok_or(LineFault::Number)?;
    let b = trace(traces, b).ok_or(LineFault::Number)?;
    let first = number(first).ok_or(LineFault::Number)?;
    let step = number(step).ok_or(LineFault::Number)?;
    let at = field(room, at)?;
    Ok(Command::Apply(Edit::Renumber {
        first_trace: a,
        last_trace: b,
        field: at,
        first_value: first,
        step,
    }))
}

pub(crate) fn set_each(room: &mut Room, traces: u32, words: Words) -> Result<Command, LineFault>
    ensures read { IsRead (read_set_each traces (spelled (words_of words.entry))) result }
    ensures memory { Rises (IsErrOf result LineFault.OutOfMemory) room.old room.new }
{
    let (a, b, at, value) = range_and_two(words).ok_or(LineFault::Words)?;
    let a = trace(traces, a).ok_or(LineFault::Number)?;
    let b = trace(traces, b).ok_or(LineFault::Number)?;
    let value = number(value).ok_or(LineFault::Number)?;
    let at = field(room, at)?;
    Ok(Command::Apply(Edit::Renumber {
        first_trace: a,
        last_trace: b,
        field: at,
        first_value: value,
        step: 0,
    }))
}

pub(crate) fn delete_one(traces: u32, words: Words) -> Result<Command, LineFault>
    ensures read { result ≡ read_delete_one traces (words_of words.entry) }
    ensures other { IfErr result (λ fault. fault ≢ LineFault.OutOfMemory) }
{
    let p = one(words).ok_or(LineFault::Words)?;
    let p = trace(traces, p).ok_or(LineFault::Number)?;
    Ok(Command::Apply(Edit::Delete(p)))
}

pub(crate) fn delete_each(alloc: Global, traces: u32, words: Words) -> Result<Command, LineFault>
    ensures read { result ≡ read_delete_each traces (spelled (words_of words.entry)) }
    ensures other { IfErr result (λ fault. fault ≢ LineFault.OutOfMemory) }
{
    let (a, b) = range_alone(words).ok_or(LineFault::Words)?;
    let a = trace(traces, a).ok_or(LineFault::Number)?;
    let b = trace(traces, b).ok_or(LineFault::Number)?;
    let chosen = Chosen {
        traces: Some((a, b)),
        conditions: Items::new(Vec::new(alloc)),
    };
    Ok(Command::Apply(Edit::OfChosen(chosen, ChosenEdit::Delete)))
}

pub(crate) fn count_each(alloc: Global, traces: u32, words: Words) -> Result<Command, LineFault>
    ensures read { result ≡ read_count_each traces (spelled (words_of words.entry)) }
    ensures other { IfErr result (λ fault. fault ≢ LineFault.OutOfMemory) }
{
    let (a, b) = range_alone(words).ok_or(LineFault::Words)?;
    let a = trace(traces, a).ok_or(LineFault::Number)?;
    let b = trace(traces, b).ok_or(LineFault::Number)?;
    let chosen = Chosen {
        traces: Some((a, b)),
        conditions: Items::new(Vec::new(alloc)),
    };
    Ok(Command::Ask(Query::OfChosen(chosen, ChosenQuery::Count)))
}

pub(crate) fn stats_each(alloc: Global, traces: u32, words: Words) -> Result<Command, LineFault>
    ensures read { result ≡ read_stats_each traces (spelled (words_of words.entry)) }
    ensures other { IfErr result (λ fault. fault ≢ LineFault.OutOfMemory) }
{
    let (a, b) = range_alone(words).ok_or(LineFault::Words)?;
    let a = trace(traces, a).ok_or(LineFault::Number)?;
    let b = trace(traces, b).ok_or(LineFault::Number)?;
    let chosen = Chosen {
        traces: Some((a, b)),
        conditions: Items::new(Vec::new(alloc)),
    };
    Ok(Command::Ask(Query::OfChosen(chosen, ChosenQuery::Stats)))
}

/// The value of samples that are floats, of the format that comes first where they are, may be a
/// decimal.
pub(crate) fn fill_each(
    alloc: Global,
    floats: Option<FloatFormat>,
    traces: u32,
    words: Words,
) -> Result<Command, LineFault>
    ensures read { result ≡ read_fill floats traces (spelled (words_of words.entry)) }
    ensures other { IfErr result (λ fault. fault ≢ LineFault.OutOfMemory) }
{
    let (a, b, first, last, value) = range_and_three(words).ok_or(LineFault::Words)?;
    let a = trace(traces, a).ok_or(LineFault::Number)?;
    let b = trace(traces, b).ok_or(LineFault::Number)?;
    let last_sample = position(last).ok_or(LineFault::Number)?;
    let value = sample(floats, value).ok_or(LineFault::Number)?;
    let first_sample = position(first).ok_or(LineFault::Number)?;
    let chosen = Chosen {
        traces: Some((a, b)),
        conditions: Items::new(Vec::new(alloc)),
    };
    let edit = ChosenEdit::Fill {
        first_sample,
        last_sample,
        value,
    };
    Ok(Command::Apply(Edit::OfChosen(chosen, edit)))
}
