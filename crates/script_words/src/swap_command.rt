// The command that puts two fields in the place of one another.
ghost use Rattle.std.specs.Prelude.{◌≡◌, Some, [], IsErrOf};
ghost use Rattle.room.specs.Refusals.{Rises};
ghost use Rattle.bench_rules.specs.declared.chosen_edit.ChosenEdit.TheVariants.{Swap as swap_of};
ghost use Rattle.bench_rules.specs.declared.edit.Edit.TheVariants.{OfChosen as edit_of_chosen};
ghost use Rattle.script_words.specs.declared.command.Command.TheVariants.{Apply as apply};
ghost use Rattle.script_words.specs.Words.{words_of};
ghost use Rattle.script_words.specs.Ranges.{spelled};
ghost use Rattle.script_words.specs.RangeCommands.{read_swap};
ghost use Rattle.script_words.specs.Commands.{IsRead};

use crate::command::Command;
use crate::fields::{field, is_field};
use crate::line_fault::LineFault;
use crate::numbers::trace;
use crate::parse::range_and_two;
use crate::words::Words;
use bench_rules::{Chosen, ChosenEdit, Edit, Field, Items};
use room::Room;
use std::alloc::Global;

pub(crate) fn swap_each(room: &mut Room, traces: u32, words: Words) -> Result<Command, LineFault>
    ensures read { IsRead (read_swap traces (spelled (words_of words.entry))) result }
    ensures memory { Rises (IsErrOf result LineFault.OutOfMemory) room.old room.new }
{
    let (a, b, first, second) = range_and_two(words).ok_or(LineFault::Words)?;
    let a = trace(traces, a).ok_or(LineFault::Number)?;
    let b = trace(traces, b).ok_or(LineFault::Number)?;
    // S03 of either word comes before E11.
    if !is_field(first) || !is_field(second) {
        return Err(LineFault::Number);
    }
    let first = field(room, first)?;
    let second = field(room, second)?;
    Ok(swap(room.alloc(), a, b, first, second))
}

// The edit that puts the two fields of traces a to b in the place of one another.
fn swap(alloc: Global, a: u32, b: u32, first: Field, second: Field) -> Command
    ensures { result ≡ apply (edit_of_chosen (record {
      traces = Some (a, b);
      conditions = [];
    }) (swap_of first second)) }
{
    let chosen = Chosen {
        traces: Some((a, b)),
        conditions: Items::new(Vec::new(alloc)),
    };
    Command::Apply(Edit::OfChosen(chosen, ChosenEdit::Swap(first, second)))
}
