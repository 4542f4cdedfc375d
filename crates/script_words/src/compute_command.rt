// The command that computes a field.
ghost use Rattle.std.specs.Prelude.{◌≡◌, is_some, IsErrOf};
ghost use Rattle.room.specs.Refusals.{Rises};
ghost use Rattle.script_words.specs.Words.{words_of};
ghost use Rattle.script_words.specs.Ranges.{spelled};
ghost use Rattle.script_words.specs.Readers.{operand_of, operator_of, steps_of};
ghost use Rattle.script_words.specs.HeaderCommands.{read_compute};
ghost use Rattle.script_words.specs.Commands.{IsOperandRead, IsListRead, IsRead};

use crate::command::Command;
use crate::fields::{field, is_field};
use crate::line_fault::LineFault;
use crate::numbers::{is_number_like, number, trace};
use crate::words::{Words, number_of_words};
use bench_rules::{Edit, Items, Operand, Operator};
use room::Room;

pub(crate) fn compute(room: &mut Room, traces: u32, mut words: Words) -> Result<Command, LineFault>
    ensures read { IsRead (read_compute traces (spelled (words_of words.entry))) result }
    ensures memory { Rises (IsErrOf result LineFault.OutOfMemory) room.old room.new }
{
    let (a, b) = words.range().ok_or(LineFault::Words)?;
    let at = words.next().ok_or(LineFault::Words)?;
    let source = words.next().ok_or(LineFault::Words)?;
    let rest = words.rest();
    let count = number_of_words(rest, 17);
    if count == 17 || count % 2 != 0 {
        return Err(LineFault::Words);
    }
    let a = trace(traces, a).ok_or(LineFault::Number)?;
    let b = trace(traces, b).ok_or(LineFault::Number)?;
    // S03 of any word comes before E11.
    if !is_field(at) || !is_operand(source) {
        return Err(LineFault::Number);
    }
    let steps = steps(room, rest)?;
    let at = field(room, at)?;
    let source = operand(room, source)?;
    Ok(Command::Apply(Edit::Compute {
        first_trace: a,
        last_trace: b,
        field: at,
        source,
        steps,
    }))
}

// The operand that a word is: a number where it begins as one, else a field. Refused: S03, or E11
// for a name.
pub(crate) fn operand(room: &mut Room, word: &str) -> Result<Operand, LineFault>
    ensures read { IsOperandRead (operand_of word.now) result }
    ensures memory { Rises (IsErrOf result LineFault.OutOfMemory) room.old room.new }
{
    if is_number_like(word) {
        match number(word) {
            Some(number) => Ok(Operand::Number(number)),
            None => Err(LineFault::Number),
        }
    } else {
        Ok(Operand::Field(field(room, word)?))
    }
}

// Whether the word is an operand.
pub(crate) fn is_operand(word: &str) -> bool
    ensures { result ≡ is_some (operand_of word.now) }
{
    if is_number_like(word) {
        number(word).is_some()
    } else {
        is_field(word)
    }
}

// The operator that a word is.
fn operator(word: &str) -> Option<Operator>
    ensures { result ≡ operator_of word.now }
{
    match word {
        "+" => Some(Operator::Plus),
        "-" => Some(Operator::Minus),
        "*" => Some(Operator::Times),
        "/" => Some(Operator::Over),
        "%" => Some(Operator::Modulo),
        _ => None,
    }
}

// Whether the words of the text are operators, each with an operand.
fn are_steps(text: &str) -> bool
    ensures { result ≡ is_some (steps_of (words_of text.now)) }
{
    let mut words = Words::new(text);
    'words: while let Some(word) = words.next() {
        let Some(of) = words.next() else {
            return false;
        };
        if operator(word).is_none() || !is_operand(of) {
            return false;
        }
    }
    true
}

// The operations that the words of the text are. Takes memory. S03 where a word is no operator or
// no operand, else E11.
fn steps(room: &mut Room, text: &str) -> Result<Items<(Operator, Operand)>, LineFault>
    ensures read { IsListRead (steps_of (words_of text.now)) result }
    ensures memory { Rises (IsErrOf result LineFault.OutOfMemory) room.old room.new }
{
    // S03 of any word comes before E11.
    if !are_steps(text) {
        return Err(LineFault::Number);
    }
    let mut steps = Vec::new(room.alloc());
    let mut words = Words::new(text);
    'words: while let Some(word) = words.next() {
        let of = words.next().ok_or(LineFault::Number)?;
        let with = operator(word).ok_or(LineFault::Number)?;
        let of = operand(room, of)?;
        let Ok(()) = room.told_back(steps.push((with, of))) else {
            return Err(LineFault::OutOfMemory);
        };
    }
    Ok(Items::new(steps))
}
