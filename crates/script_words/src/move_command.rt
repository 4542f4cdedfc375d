// The command that moves a trace, or a block of them.
ghost use Rattle.std.specs.Prelude.{◌≡◌, IfErr, ◌≢◌};
ghost use Rattle.script_words.specs.MoveCommands.{block_place_of, read_move, read_move_block, read_move_one};
ghost use Rattle.script_words.specs.Words.{words_of};

use crate::command::Command;
use crate::line_fault::LineFault;
use crate::numbers::{position, trace};
use crate::parse::{three, two};
use crate::words::{Words, is_all, number_of_words};
use bench_rules::Edit;

pub(crate) fn move_traces(traces: u32, words: Words) -> Result<Command, LineFault>
    ensures read { result ≡ read_move traces (words_of words.entry) }
    ensures other { IfErr result (λ fault. fault ≢ LineFault.OutOfMemory) }
{
    if number_of_words(words.rest(), 4) == 3 && !is_all(words.rest()) {
        move_block(traces, words)
    } else {
        move_one(traces, words)
    }
}

fn move_one(traces: u32, words: Words) -> Result<Command, LineFault>
    ensures read { result ≡ read_move_one traces (words_of words.entry) }
    ensures other { IfErr result (λ fault. fault ≢ LineFault.OutOfMemory) }
{
    let (a, b) = two(words).ok_or(LineFault::Words)?;
    let a = trace(traces, a).ok_or(LineFault::Number)?;
    let b = trace(traces, b).ok_or(LineFault::Number)?;
    Ok(Command::Apply(Edit::Move(a, b)))
}

fn move_block(traces: u32, words: Words) -> Result<Command, LineFault>
    ensures read { result ≡ read_move_block traces (words_of words.entry) }
    ensures other { IfErr result (λ fault. fault ≢ LineFault.OutOfMemory) }
{
    let (a, b, to) = three(words).ok_or(LineFault::Words)?;
    let a = trace(traces, a).ok_or(LineFault::Number)?;
    let b = trace(traces, b).ok_or(LineFault::Number)?;
    let to = block_place(traces, a, b, to).ok_or(LineFault::Number)?;
    Ok(Command::Apply(Edit::MoveBlock(a, b, to)))
}

// The number that the first of traces a to b gets: `last` is one behind the traces that are left.
// Where a to b are no range of the file, the edit is refused for that, whatever is given here.
fn block_place(traces: u32, a: u32, b: u32, word: &str) -> Option<u32>
    ensures { result ≡ block_place_of traces a b word.now }
{
    if word == "last" {
        Some(traces.saturating_sub(b.saturating_sub(a)))
    } else {
        position(word)
    }
}
