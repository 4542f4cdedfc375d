// The commands on samples and on whole traces.
ghost use Rattle.std.specs.Prelude.{◌≡◌, is_some, if◌then◌else◌, IsErrOf, IfErr, ◌≢◌};
ghost use Rattle.room.specs.Refusals.{Rises};
ghost use Rattle.script_words.specs.declared.line_fault.LineFault.TheVariants.{OutOfMemory as no_memory, Number as no_number};
ghost use Rattle.script_words.specs.Words.{words_of};
ghost use Rattle.script_words.specs.Readers.{numbers_of};
ghost use Rattle.script_words.specs.Commands.{read_patch, read_blank, read_copy, read_resize, IsListRead, IsRead};

use crate::command::Command;
use crate::line_fault::LineFault;
use crate::numbers::{new_place, number, position, sample, trace};
use crate::parse::{one, two};
use crate::words::Words;
use bench_rules::{Edit, Items};
use float_codes::FloatFormat;
use room::Room;

/// The values of samples that are floats, of the format that comes first where they are, may be
/// decimals.
pub(crate) fn patch(
    room: &mut Room,
    floats: Option<FloatFormat>,
    traces: u32,
    mut words: Words,
) -> Result<Command, LineFault>
    ensures read { IsRead (read_patch floats traces (words_of words.entry)) result }
    ensures memory { Rises (IsErrOf result LineFault.OutOfMemory) room.old room.new }
{
    let p = words.next().ok_or(LineFault::Words)?;
    let k = words.next().ok_or(LineFault::Words)?;
    let values = words.rest();
    if words.next().is_none() {
        return Err(LineFault::Words);
    }
    let p = trace(traces, p).ok_or(LineFault::Number)?;
    let k = position(k).ok_or(LineFault::Number)?;
    let values = numbers(room, floats, values)?;
    Ok(Command::Apply(Edit::Patch(p, k, values)))
}

pub(crate) fn blank(traces: u32, words: Words) -> Result<Command, LineFault>
    ensures read { result ≡ read_blank traces (words_of words.entry) }
    ensures other { IfErr result (λ fault. fault ≢ LineFault.OutOfMemory) }
{
    let p = one(words).ok_or(LineFault::Words)?;
    let p = new_place(traces, p).ok_or(LineFault::Number)?;
    Ok(Command::Apply(Edit::Blank(p)))
}

pub(crate) fn copy(traces: u32, words: Words) -> Result<Command, LineFault>
    ensures read { result ≡ read_copy traces (words_of words.entry) }
    ensures other { IfErr result (λ fault. fault ≢ LineFault.OutOfMemory) }
{
    let (q, p) = two(words).ok_or(LineFault::Words)?;
    let q = trace(traces, q).ok_or(LineFault::Number)?;
    let p = new_place(traces, p).ok_or(LineFault::Number)?;
    Ok(Command::Apply(Edit::Copy(q, p)))
}

pub(crate) fn resize(traces: u32, words: Words) -> Result<Command, LineFault>
    ensures read { result ≡ read_resize traces (words_of words.entry) }
    ensures other { IfErr result (λ fault. fault ≢ LineFault.OutOfMemory) }
{
    let (p, count) = two(words).ok_or(LineFault::Words)?;
    let p = trace(traces, p).ok_or(LineFault::Number)?;
    let count = number(count).ok_or(LineFault::Number)?;
    Ok(Command::Apply(Edit::Resize(p, count)))
}

// Whether each word of the text is a number.
fn are_numbers(floats: Option<FloatFormat>, text: &str) -> bool
    ensures { result ≡ is_some (numbers_of floats (words_of text.now)) }
{
    let mut words = Words::new(text);
    'words: while let Some(word) = words.next() {
        if sample(floats, word).is_none() {
            return false;
        }
    }
    true
}

// What is told where memory ran out in front of this rest: S03 comes before E11.
fn fault_without_memory(floats: Option<FloatFormat>, rest: &str) -> LineFault
    ensures { result ≡
        if is_some (numbers_of floats (words_of rest.now)) then no_memory else no_number }
{
    if are_numbers(floats, rest) {
        LineFault::OutOfMemory
    } else {
        LineFault::Number
    }
}

// The numbers that the words of the text are. Takes memory. S03 where a word is no number, else
// E11.
fn numbers(
    room: &mut Room,
    floats: Option<FloatFormat>,
    text: &str,
) -> Result<Items<i128>, LineFault>
    ensures read { IsListRead (numbers_of floats (words_of text.now)) result }
    ensures memory { Rises (IsErrOf result LineFault.OutOfMemory) room.old room.new }
{
    let mut values = Vec::new(room.alloc());
    let mut words = Words::new(text);
    'words: while let Some(word) = words.next() {
        match sample(floats, word) {
            Some(value) => {
                let Ok(()) = room.told_back(values.push(value)) else {
                    return Err(fault_without_memory(floats, words.rest()));
                };
            }
            None => return Err(LineFault::Number),
        }
    }
    Ok(Items::new(values))
}
