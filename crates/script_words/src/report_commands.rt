// The queries about the survey and its samples.
ghost use Rattle.std.specs.Prelude.{◌≡◌, bytes_eq, IfErr, ◌≢◌};
ghost use Rattle.std.specs.Map.{lookup};
ghost use Rattle.script_words.specs.Words.{words_of};
ghost use Rattle.script_words.specs.Readers.{quantity_of};
ghost use Rattle.script_words.specs.ReportCommands.{report_commands, read_geometry, read_stat, read_fold, read_range, read_slice};
ghost use Rattle.script_words.specs.Commands.{read_by};

use crate::command::Command;
use crate::line_fault::LineFault;
use crate::numbers::{number, position, trace};
use crate::parse::{one, query_alone, two};
use crate::words::Words;
use bench_rules::Query;
use range_stats::Quantity;

// The query of a report's word and of the words behind it; S01 for any other word.
pub(crate) fn report(traces: u32, word: &str, words: Words) -> Result<Command, LineFault>
    ensures read { result ≡ read_by (lookup (bytes_eq word.now) (report_commands traces))
        (words_of words.entry) }
    ensures other { IfErr result (λ fault. fault ≢ LineFault.OutOfMemory) }
{
    match word {
        "geometry" => geometry(traces, words),
        "stat" => stat(traces, words),
        "fold" => fold(words),
        "grid" => query_alone(words, Query::Grid),
        "inlines" => query_alone(words, Query::Inlines),
        "crosslines" => query_alone(words, Query::Crosslines),
        "histogram" => query_alone(words, Query::Histogram),
        "range" => range(words),
        "totals" => query_alone(words, Query::Totals),
        "slice" => slice(words),
        "faults" => query_alone(words, Query::Faults),
        "problems" => query_alone(words, Query::Problems),
        "survey" => query_alone(words, Query::Survey),
        _ => Err(LineFault::Unknown),
    }
}

fn geometry(traces: u32, words: Words) -> Result<Command, LineFault>
    ensures read { result ≡ read_geometry traces (words_of words.entry) }
    ensures other { IfErr result (λ fault. fault ≢ LineFault.OutOfMemory) }
{
    let p = one(words).ok_or(LineFault::Words)?;
    let p = trace(traces, p).ok_or(LineFault::Number)?;
    Ok(Command::Ask(Query::Geometry(p)))
}

fn stat(traces: u32, words: Words) -> Result<Command, LineFault>
    ensures read { result ≡ read_stat traces (words_of words.entry) }
    ensures other { IfErr result (λ fault. fault ≢ LineFault.OutOfMemory) }
{
    let p = one(words).ok_or(LineFault::Words)?;
    let p = trace(traces, p).ok_or(LineFault::Number)?;
    Ok(Command::Ask(Query::Stat(p)))
}

fn fold(words: Words) -> Result<Command, LineFault>
    ensures read { result ≡ read_fold (words_of words.entry) }
    ensures other { IfErr result (λ fault. fault ≢ LineFault.OutOfMemory) }
{
    let (inline, crossline) = two(words).ok_or(LineFault::Words)?;
    let inline = number(inline).ok_or(LineFault::Number)?;
    let crossline = number(crossline).ok_or(LineFault::Number)?;
    Ok(Command::Ask(Query::Fold(inline, crossline)))
}

fn range(words: Words) -> Result<Command, LineFault>
    ensures read { result ≡ read_range (words_of words.entry) }
    ensures other { IfErr result (λ fault. fault ≢ LineFault.OutOfMemory) }
{
    let which = one(words).ok_or(LineFault::Words)?;
    let which = quantity(which).ok_or(LineFault::Number)?;
    Ok(Command::Ask(Query::Range(which)))
}

fn slice(words: Words) -> Result<Command, LineFault>
    ensures read { result ≡ read_slice (words_of words.entry) }
    ensures other { IfErr result (λ fault. fault ≢ LineFault.OutOfMemory) }
{
    let k = one(words).ok_or(LineFault::Words)?;
    let k = position(k).ok_or(LineFault::Number)?;
    Ok(Command::Ask(Query::Slice(k)))
}

// The kind of value that a word names.
fn quantity(word: &str) -> Option<Quantity>
    ensures { result ≡ quantity_of word.now }
{
    match word {
        "inline" => Some(Quantity::Inline),
        "crossline" => Some(Quantity::Crossline),
        "offset" => Some(Quantity::Offset),
        "x" => Some(Quantity::X),
        "y" => Some(Quantity::Y),
        _ => None,
    }
}
