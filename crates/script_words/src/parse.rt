// A line of a script into a command.
ghost use Rattle.std.specs.Prelude.{◌≡◌, ◌≢◌, ◌∷◌, [], length, IfSome, IfNone, IsErrOf, IfErr};
ghost use Rattle.room.specs.Refusals.{Rises};
ghost use Rattle.script_words.specs.Words.{words_of};
ghost use Rattle.script_words.specs.declared.command.Command.TheVariants.{Ask as ask};
ghost use Rattle.script_words.specs.Ranges.{spelled};
ghost use Rattle.script_words.specs.Readers.{alone};
ghost use Rattle.script_words.specs.Commands.{command_of, read_get, read_bin, read_getbin, read_declare, read_drop, read_text, read_line, read_lines, read_code, read_unmap, read_sample, IsRead, IsParsed};
ghost use Rattle.script_words.specs.MapCommands.{read_map_name};

use crate::command::Command;
use crate::fields::{field, target, text_of};
use crate::header_commands::of_headers;
use crate::line_fault::LineFault;
use crate::map_command::map;
use crate::move_command::move_traces;
use crate::numbers::{number, position, trace};
use crate::range_command::RangeCommand;
use crate::ranges::ranged;
use crate::trace_commands::{blank, copy, patch, resize};
use crate::words::Words;
use bench_rules::{Edit, Query};
use float_codes::FloatFormat;
use room::Room;
use std::str;

/// The command of one line of a script, given without its line feed and the carriage return that is
/// dropped; `Ok(None)` where it has no words, or its first word begins with `#`.
///
/// Words are separated by blanks and tabs. A line that is not UTF-8 is S04, a first word that is no
/// command S01, too few or too many words S02, and a word that has to be a number, a place, a kind
/// of value, an operator or the sign of a condition and is none S03; the first is told. Values of
/// floats, whose format comes first, are decimals; `last` is the last of so many traces, `end` one
/// more, and `all` stands for the two words of a range. Takes memory only where the command holds a
/// text, a name or a list, and is E11 without.
pub fn parse_line(
    room: &mut Room,
    floats: Option<FloatFormat>,
    traces: u32,
    line: &[u8],
) -> Result<Option<Command>, LineFault>
    ensures read { IsParsed floats traces line.now result }
    ensures memory { Rises (IsErrOf result LineFault.OutOfMemory) room.old room.new }
{
    let Ok(text) = str::from_utf8(line) else {
        return Err(LineFault::NotText);
    };
    let mut words = Words::new(text);
    match words.next() {
        None => Ok(None),
        Some(word) if word.as_bytes().starts_with(b"#") => Ok(None),
        Some(word) => Ok(Some(command(room, floats, traces, word, words)?)),
    }
}

// The command of a word and of what stands behind it.
fn command(
    room: &mut Room,
    floats: Option<FloatFormat>,
    traces: u32,
    word: &str,
    words: Words,
) -> Result<Command, LineFault>
    ensures read { IsRead (command_of floats traces word.now words.entry) result }
    ensures memory { Rises (IsErrOf result LineFault.OutOfMemory) room.old room.new }
{
    match word {
        "get" => get(room, traces, words),
        "bin" => bin(room, words),
        "getbin" => getbin(room, words),
        "declare" => declare(words),
        "drop" => drop_tail(words),
        "text" => text(room, words),
        "line" => line(words),
        "lines" => lines(words),
        "code" => code(words),
        "stanzas" => query_alone(words, Query::Stanzas),
        "map" => map(room, words),
        "unmap" => unmap(room, words),
        "fields" => query_alone(words, Query::Fields),
        "info" => query_alone(words, Query::Info),
        "sample" => sample(traces, words),
        "patch" => patch(room, floats, traces, words),
        "fill" => ranged(room, floats, traces, RangeCommand::Fill(floats), words),
        "blank" => blank(traces, words),
        "copy" => copy(traces, words),
        "move" => move_traces(traces, words),
        "resize" => resize(traces, words),
        _ => of_headers(room, floats, traces, word, words),
    }
}

fn get(room: &mut Room, traces: u32, words: Words) -> Result<Command, LineFault>
    ensures read { IsRead (read_get traces (words_of words.entry)) result }
    ensures memory { Rises (IsErrOf result LineFault.OutOfMemory) room.old room.new }
{
    let (p, at) = two(words).ok_or(LineFault::Words)?;
    let p = trace(traces, p).ok_or(LineFault::Number)?;
    let at = field(room, at)?;
    Ok(Command::Ask(Query::Get(p, at)))
}

fn bin(room: &mut Room, words: Words) -> Result<Command, LineFault>
    ensures read { IsRead (read_bin (words_of words.entry)) result }
    ensures memory { Rises (IsErrOf result LineFault.OutOfMemory) room.old room.new }
{
    let (at, value) = two(words).ok_or(LineFault::Words)?;
    let value = number(value).ok_or(LineFault::Number)?;
    let at = field(room, at)?;
    Ok(Command::Apply(Edit::SetBin(at, value)))
}

fn getbin(room: &mut Room, words: Words) -> Result<Command, LineFault>
    ensures read { IsRead (read_getbin (words_of words.entry)) result }
    ensures memory { Rises (IsErrOf result LineFault.OutOfMemory) room.old room.new }
{
    let at = one(words).ok_or(LineFault::Words)?;
    let at = field(room, at)?;
    Ok(Command::Ask(Query::GetBin(at)))
}

fn declare(mut words: Words) -> Result<Command, LineFault>
    ensures read { result ≡ read_declare (words_of words.entry) }
    ensures other { IfErr result (λ fault. fault ≢ LineFault.OutOfMemory) }
{
    if words.next().is_some() {
        return Err(LineFault::Words);
    }
    Ok(Command::Apply(Edit::Declare))
}

fn drop_tail(words: Words) -> Result<Command, LineFault>
    ensures read { result ≡ read_drop (words_of words.entry) }
    ensures other { IfErr result (λ fault. fault ≢ LineFault.OutOfMemory) }
{
    let what = one(words).ok_or(LineFault::Words)?;
    if what != "tail" {
        return Err(LineFault::Number);
    }
    Ok(Command::Apply(Edit::DropTail))
}

fn text(room: &mut Room, mut words: Words) -> Result<Command, LineFault>
    ensures read { IsRead (read_text words.entry (words_of words.entry)) result }
    ensures memory { Rises (IsErrOf result LineFault.OutOfMemory) room.old room.new }
{
    let q = words.next().ok_or(LineFault::Words)?;
    let q = position(q).ok_or(LineFault::Number)?;
    let text = text_of(room, words.text_behind())?;
    Ok(Command::Apply(Edit::SetText(q, text)))
}

fn line(words: Words) -> Result<Command, LineFault>
    ensures read { result ≡ read_line (words_of words.entry) }
    ensures other { IfErr result (λ fault. fault ≢ LineFault.OutOfMemory) }
{
    let (b, q) = two(words).ok_or(LineFault::Words)?;
    let b = position(b).ok_or(LineFault::Number)?;
    let q = position(q).ok_or(LineFault::Number)?;
    Ok(Command::Ask(Query::Line(b, q)))
}

fn lines(words: Words) -> Result<Command, LineFault>
    ensures read { result ≡ read_lines (words_of words.entry) }
    ensures other { IfErr result (λ fault. fault ≢ LineFault.OutOfMemory) }
{
    let b = one(words).ok_or(LineFault::Words)?;
    let b = position(b).ok_or(LineFault::Number)?;
    Ok(Command::Ask(Query::Lines(b)))
}

fn code(words: Words) -> Result<Command, LineFault>
    ensures read { result ≡ read_code (words_of words.entry) }
    ensures other { IfErr result (λ fault. fault ≢ LineFault.OutOfMemory) }
{
    let b = one(words).ok_or(LineFault::Words)?;
    let b = position(b).ok_or(LineFault::Number)?;
    Ok(Command::Ask(Query::Code(b)))
}

pub(crate) fn map_name(room: &mut Room, words: Words) -> Result<Command, LineFault>
    ensures read { IsRead (read_map_name (words_of words.entry)) result }
    ensures memory { Rises (IsErrOf result LineFault.OutOfMemory) room.old room.new }
{
    let (name, at) = two(words).ok_or(LineFault::Words)?;
    // S03 of any word comes before E11.
    let at = target(room, at)?;
    let name = text_of(room, name)?;
    Ok(Command::Apply(Edit::Map(name, at)))
}

fn unmap(room: &mut Room, words: Words) -> Result<Command, LineFault>
    ensures read { IsRead (read_unmap (words_of words.entry)) result }
    ensures memory { Rises (IsErrOf result LineFault.OutOfMemory) room.old room.new }
{
    let name = one(words).ok_or(LineFault::Words)?;
    let name = text_of(room, name)?;
    Ok(Command::Apply(Edit::Unmap(name)))
}

fn sample(traces: u32, words: Words) -> Result<Command, LineFault>
    ensures read { result ≡ read_sample traces (words_of words.entry) }
    ensures other { IfErr result (λ fault. fault ≢ LineFault.OutOfMemory) }
{
    let (p, k) = two(words).ok_or(LineFault::Words)?;
    let p = trace(traces, p).ok_or(LineFault::Number)?;
    let k = position(k).ok_or(LineFault::Number)?;
    Ok(Command::Ask(Query::Sample(p, k)))
}

// The query, where no words follow its own.
pub(crate) fn query_alone(mut words: Words, query: Query) -> Result<Command, LineFault>
    ensures read { result ≡ alone (ask query) (words_of words.entry) }
    ensures other { IfErr result (λ fault. fault ≢ LineFault.OutOfMemory) }
{
    match words.next() {
        Some(_) => Err(LineFault::Words),
        None => Ok(Command::Ask(query)),
    }
}

// The word, where there is one alone.
pub(crate) fn one(mut words: Words) -> Option<&str>
    ensures none { IfNone result (length (words_of words.entry) ≢ 1) }
    ensures some { IfSome result (λ word. words_of words.entry ≡ word.now ∷ []) }
{
    let one = words.next()?;
    match words.next() {
        Some(_) => None,
        None => Some(one),
    }
}

// The two words, where they are two.
pub(crate) fn two(mut words: Words) -> Option<(&str, &str)>
    ensures none { IfNone result (length (words_of words.entry) ≢ 2) }
    ensures some { IfSome result (λ t. words_of words.entry ≡ t.0.now ∷ t.1.now ∷ []) }
{
    let two = (words.next()?, words.next()?);
    match words.next() {
        Some(_) => None,
        None => Some(two),
    }
}

// The three words, where they are three.
pub(crate) fn three(mut words: Words) -> Option<(&str, &str, &str)>
    ensures none { IfNone result (length (words_of words.entry) ≢ 3) }
    ensures some { IfSome result (λ t. words_of words.entry ≡ t.0.now ∷ t.1.now ∷ t.2.now ∷ []) }
{
    let three = (words.next()?, words.next()?, words.next()?);
    match words.next() {
        Some(_) => None,
        None => Some(three),
    }
}

// The two words of a range of traces, where they are all.
pub(crate) fn range_alone(mut words: Words) -> Option<(&str, &str)>
    ensures none { IfNone result (length (spelled (words_of words.entry)) ≢ 2) }
    ensures some { IfSome result (λ t. spelled (words_of words.entry) ≡ t.0.now ∷ t.1.now ∷ []) }
{
    let two = words.range()?;
    match words.next() {
        Some(_) => None,
        None => Some(two),
    }
}

// The two words of a range of traces and two more, where they are all.
pub(crate) fn range_and_two(mut words: Words) -> Option<(&str, &str, &str, &str)>
    ensures none { IfNone result (length (spelled (words_of words.entry)) ≢ 4) }
    ensures some { IfSome result (λ t. spelled (words_of words.entry)
        ≡ t.0.now ∷ t.1.now ∷ t.2.now ∷ t.3.now ∷ []) }
{
    let (a, b) = words.range()?;
    let four = (a, b, words.next()?, words.next()?);
    match words.next() {
        Some(_) => None,
        None => Some(four),
    }
}

// The two words of a range of traces and three more, where they are all.
pub(crate) fn range_and_three(mut words: Words) -> Option<(&str, &str, &str, &str, &str)>
    ensures none { IfNone result (length (spelled (words_of words.entry)) ≢ 5) }
    ensures some { IfSome result (λ t. spelled (words_of words.entry)
        ≡ t.0.now ∷ t.1.now ∷ t.2.now ∷ t.3.now ∷ t.4.now ∷ []) }
{
    let (a, b) = words.range()?;
    let (at, first, second) = words.next_three()?;
    match words.next() {
        Some(_) => None,
        None => Some((a, b, at, first, second)),
    }
}
