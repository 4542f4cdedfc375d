// The command that puts traces in order.
ghost use Rattle.std.specs.Prelude.{◌≡◌, is_some, map, IfOk, IfErr, IsErrOf};
ghost use Rattle.room.specs.Refusals.{Rises};
ghost use Rattle.script_words.specs.declared.line_fault.LineFault.TheVariants.{OutOfMemory as no_memory};
ghost use Rattle.script_words.specs.Words.{words_of};
ghost use Rattle.script_words.specs.Ranges.{spelled};
ghost use Rattle.script_words.specs.HeaderCommands.{read_sort, is_falling as is_falling_word, without_sign as word_without_sign, sorted_fields_of};
ghost use Rattle.script_words.specs.Commands.{IsListRead, IsRead};

use crate::command::Command;
use crate::fields::{field, is_field};
use crate::line_fault::LineFault;
use crate::numbers::trace;
use crate::words::{Words, number_of_words};
use bench_rules::{Edit, Field, Items};
use room::Room;

pub(crate) fn sort_each(
    room: &mut Room,
    traces: u32,
    mut words: Words,
) -> Result<Command, LineFault>
    ensures read { IsRead (read_sort traces (spelled (words_of words.entry))) result }
    ensures memory { Rises (IsErrOf result LineFault.OutOfMemory) room.old room.new }
{
    let (a, b) = words.range().ok_or(LineFault::Words)?;
    let rest = words.rest();
    let count = number_of_words(rest, 9);
    if count == 0 || count == 9 {
        return Err(LineFault::Words);
    }
    let a = trace(traces, a).ok_or(LineFault::Number)?;
    let b = trace(traces, b).ok_or(LineFault::Number)?;
    let fields = sorted_fields(room, rest)?;
    let falling = falling(room, rest)?;
    Ok(Command::Apply(Edit::Sort {
        first_trace: a,
        last_trace: b,
        fields,
        falling,
    }))
}

// Whether the numbers of the word's field are to fall: `-` stands in front of it. `-` alone is a
// name.
fn is_falling(word: &[u8]) -> bool
    ensures { result ≡ is_falling_word word.now }
{
    word.len() > 1 && word.starts_with(b"-")
}

// The word without a `-` in front of its field.
fn without_sign(word: &str) -> &str
    ensures { result.now ≡ word_without_sign word.now }
{
    if is_falling(word.as_bytes()) {
        let (_, field) = word.split_at(1);
        field
    } else {
        word
    }
}

// Whether each word of the text is a field, with `-` in front of it or without.
fn are_sorted_fields(text: &str) -> bool
    ensures { result ≡ is_some (sorted_fields_of (words_of text.now)) }
{
    let mut words = Words::new(text);
    'words: while let Some(word) = words.next() {
        if !is_field(without_sign(word)) {
            return false;
        }
    }
    true
}

// The fields that the words of the text are, with `-` in front of them or without. Takes memory.
// S03 where a word is no field, else E11.
fn sorted_fields(room: &mut Room, text: &str) -> Result<Items<Field>, LineFault>
    ensures read { IsListRead (sorted_fields_of (words_of text.now)) result }
    ensures memory { Rises (IsErrOf result LineFault.OutOfMemory) room.old room.new }
{
    // S03 of any word comes before E11.
    if !are_sorted_fields(text) {
        return Err(LineFault::Number);
    }
    let mut fields = Vec::new(room.alloc());
    let mut words = Words::new(text);
    'words: while let Some(word) = words.next() {
        let at = field(room, without_sign(word))?;
        let Ok(()) = room.told_back(fields.push(at)) else {
            return Err(LineFault::OutOfMemory);
        };
    }
    Ok(Items::new(fields))
}

// For each word of the text, whether the numbers of its field are to fall. Takes memory.
fn falling(room: &mut Room, text: &str) -> Result<Items<bool>, LineFault>
    ensures ok { IfOk result (λ falls. falls ≡ map is_falling_word (words_of text.now)) }
    ensures err { IfErr result (λ fault. fault ≡ no_memory) }
    ensures memory { Rises (IsErrOf result LineFault.OutOfMemory) room.old room.new }
{
    let mut falling = Vec::new(room.alloc());
    let mut words = Words::new(text);
    'words: while let Some(word) = words.next() {
        let Ok(()) = room.told_back(falling.push(is_falling(word.as_bytes()))) else {
            return Err(LineFault::OutOfMemory);
        };
    }
    Ok(Items::new(falling))
}
