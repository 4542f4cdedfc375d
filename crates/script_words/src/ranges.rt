// The commands on a range of traces, with conditions behind `where` or without.
ghost use Rattle.std.specs.Prelude.{◌≡◌, [], true, IsErrOf};
ghost use Rattle.room.specs.Refusals.{Rises};
ghost use Rattle.script_words.specs.Words.{words_of};
ghost use Rattle.script_words.specs.Ranges.{spelled, is_of_none as are_of_none, of_range as read_of_range, of_conditions, under as under_conditions};
ghost use Rattle.script_words.specs.HeaderCommands.{read_sort};
ghost use Rattle.script_words.specs.RangeCommands.{read_each, read_set, read_delete, read_plain, read_ranged};
ghost use Rattle.script_words.specs.Commands.{IsRead};

use crate::chosen::under;
use crate::command::Command;
use crate::compute_command::compute;
use crate::conditions::{conditions, fault_without_memory, has_conditions, split_where};
use crate::header_commands::{extremes, find, table};
use crate::line_fault::LineFault;
use crate::many_commands::{
    count_each, delete_each, delete_one, fill_each, renumber, set_each, set_one, stats_each,
};
use crate::parse::query_alone;
use crate::range_command::RangeCommand;
use crate::samples_command::samples_each;
use crate::sort_command::sort_each;
use crate::swap_command::swap_each;
use crate::words::{Words, is_all, number_of_words};
use bench_rules::{Items, Query};
use float_codes::FloatFormat;
use room::Room;
use std::alloc::Global;

/// The command, with conditions or without, which may have decimals where samples are floats, whose
/// format comes first. Of the words in front of the conditions and of those
/// of the conditions, wrong numbers of both come before what any of them is.
pub(crate) fn ranged(
    room: &mut Room,
    floats: Option<FloatFormat>,
    traces: u32,
    which: RangeCommand,
    words: Words,
) -> Result<Command, LineFault>
    ensures read { IsRead (read_ranged floats traces which (words_of words.entry)) result }
    ensures memory { Rises (IsErrOf result LineFault.OutOfMemory) room.old room.new }
{
    match split_where(words.rest()) {
        Some((front, behind)) => with_conditions(room, floats, traces, which, front, behind),
        None => plain(room, traces, which, words),
    }
}

// The command of what stands in front of `where`, on the traces that meet the conditions behind
// it.
fn with_conditions(
    room: &mut Room,
    floats: Option<FloatFormat>,
    traces: u32,
    which: RangeCommand,
    front: &str,
    behind: &str,
) -> Result<Command, LineFault>
    ensures read { IsRead (of_conditions floats traces (read_each traces which)
        (words_of front.now) (words_of behind.now)) result }
    ensures memory { Rises (IsErrOf result LineFault.OutOfMemory) room.old room.new }
{
    if !has_conditions(behind) {
        return Err(LineFault::Words);
    }
    match each(room, traces, which, Words::new(front)) {
        Ok(command) => {
            let conditions = conditions(room, floats, behind)?;
            Ok(under(is_of_none(traces, front), conditions, command))
        }
        Err(LineFault::OutOfMemory) => Err(fault_without_memory(floats, behind)),
        Err(fault) => Err(fault),
    }
}

// Whether the words are about all traces of a file that has none.
fn is_of_none(traces: u32, text: &str) -> bool
    ensures { result ≡ are_of_none traces (words_of text.now) }
{
    is_all(text) && traces == 0
}

// The command, where two words or `all` tell its range.
fn each(
    room: &mut Room,
    traces: u32,
    which: RangeCommand,
    words: Words,
) -> Result<Command, LineFault>
    ensures read { IsRead (read_each traces which (spelled (words_of words.entry))) result }
    ensures memory { Rises (IsErrOf result LineFault.OutOfMemory) room.old room.new }
{
    match which {
        RangeCommand::Table => table(room, traces, words),
        RangeCommand::Find => find(room, traces, words),
        RangeCommand::Extremes => extremes(traces, words),
        RangeCommand::Set => set_each(room, traces, words),
        RangeCommand::Renumber => renumber(room, traces, words),
        RangeCommand::Compute => compute(room, traces, words),
        RangeCommand::Delete => delete_each(room.alloc(), traces, words),
        RangeCommand::Count => count_each(room.alloc(), traces, words),
        RangeCommand::Stats => stats_each(room.alloc(), traces, words),
        RangeCommand::Swap => swap_each(room, traces, words),
        RangeCommand::Samples => samples_each(room.alloc(), traces, words),
        RangeCommand::Fill(floats) => fill_each(room.alloc(), floats, traces, words),
    }
}

// The same without conditions: in a file without traces, `all` is a range of none.
fn of_range(
    room: &mut Room,
    traces: u32,
    which: RangeCommand,
    words: Words,
) -> Result<Command, LineFault>
    ensures read { IsRead (read_of_range traces (read_each traces which)
        (words_of words.entry)) result }
    ensures memory { Rises (IsErrOf result LineFault.OutOfMemory) room.old room.new }
{
    let none = is_of_none(traces, words.rest());
    let command = each(room, traces, which, words)?;
    Ok(if none {
        of_none(room.alloc(), command)
    } else {
        command
    })
}

fn of_none(alloc: Global, command: Command) -> Command
    ensures { result ≡ under_conditions true [] command }
{
    under(true, Items::new(Vec::new(alloc)), command)
}

// The command without conditions.
fn plain(
    room: &mut Room,
    traces: u32,
    which: RangeCommand,
    words: Words,
) -> Result<Command, LineFault>
    ensures read { IsRead (read_plain traces which (words_of words.entry)) result }
    ensures memory { Rises (IsErrOf result LineFault.OutOfMemory) room.old room.new }
{
    match which {
        RangeCommand::Set => set(room, traces, words),
        RangeCommand::Delete => delete(room, traces, words),
        RangeCommand::Count => query_alone(words, Query::Count),
        _ => of_range(room, traces, which, words),
    }
}

fn set(room: &mut Room, traces: u32, words: Words) -> Result<Command, LineFault>
    ensures read { IsRead (read_set traces (words_of words.entry)) result }
    ensures memory { Rises (IsErrOf result LineFault.OutOfMemory) room.old room.new }
{
    if is_all(words.rest()) || number_of_words(words.rest(), 5) == 4 {
        of_range(room, traces, RangeCommand::Set, words)
    } else {
        set_one(room, traces, words)
    }
}

fn delete(room: &mut Room, traces: u32, words: Words) -> Result<Command, LineFault>
    ensures read { IsRead (read_delete traces (words_of words.entry)) result }
    ensures memory { Rises (IsErrOf result LineFault.OutOfMemory) room.old room.new }
{
    if is_all(words.rest()) || number_of_words(words.rest(), 3) == 2 {
        of_range(room, traces, RangeCommand::Delete, words)
    } else {
        delete_one(traces, words)
    }
}

/// Traces in order, which no conditions choose.
pub(crate) fn sort(room: &mut Room, traces: u32, words: Words) -> Result<Command, LineFault>
    ensures read { IsRead (read_of_range traces (read_sort traces) (words_of words.entry)) result }
    ensures memory { Rises (IsErrOf result LineFault.OutOfMemory) room.old room.new }
{
    let none = is_of_none(traces, words.rest());
    let command = sort_each(room, traces, words)?;
    Ok(if none {
        of_none(room.alloc(), command)
    } else {
        command
    })
}
