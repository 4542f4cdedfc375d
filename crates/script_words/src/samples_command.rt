// The command that tells samples of many traces.
ghost use Rattle.std.specs.Prelude.{◌≡◌, ◌≢◌, IfErr};
ghost use Rattle.script_words.specs.Words.{words_of};
ghost use Rattle.script_words.specs.Ranges.{spelled};
ghost use Rattle.script_words.specs.RangeCommands.{read_samples, read_samples_by_step, read_samples_plain, samples_each as samples_of_each};

use crate::command::Command;
use crate::line_fault::LineFault;
use crate::numbers::{position, step, trace};
use crate::parse::{range_and_three, range_and_two};
use crate::words::Words;
use bench_rules::{Chosen, ChosenQuery, Items, Query, SampleRange};
use std::alloc::Global;

/// The number of words tells whether a step stands behind the last sample.
pub(crate) fn samples_each(alloc: Global, traces: u32, words: Words) -> Result<Command, LineFault>
    ensures read { result ≡ read_samples traces (spelled (words_of words.entry)) }
    ensures other { IfErr result (λ fault. fault ≢ LineFault.OutOfMemory) }
{
    match range_and_three(Words::new(words.rest())) {
        Some(_) => samples_by_step(alloc, traces, words),
        None => samples_plain(alloc, traces, words),
    }
}

fn samples_by_step(alloc: Global, traces: u32, words: Words) -> Result<Command, LineFault>
    ensures read { result ≡ read_samples_by_step traces (spelled (words_of words.entry)) }
    ensures other { IfErr result (λ fault. fault ≢ LineFault.OutOfMemory) }
{
    let (a, b, from, to, by) = range_and_three(words).ok_or(LineFault::Words)?;
    let a = trace(traces, a).ok_or(LineFault::Number)?;
    let b = trace(traces, b).ok_or(LineFault::Number)?;
    let to = position(to).ok_or(LineFault::Number)?;
    let by = step(by).ok_or(LineFault::Number)?;
    let from = position(from).ok_or(LineFault::Number)?;
    Ok(samples(alloc, a, b, from, to, by))
}

// Without a step each of the samples is told.
fn samples_plain(alloc: Global, traces: u32, words: Words) -> Result<Command, LineFault>
    ensures read { result ≡ read_samples_plain traces (spelled (words_of words.entry)) }
    ensures other { IfErr result (λ fault. fault ≢ LineFault.OutOfMemory) }
{
    let (a, b, from, to) = range_and_two(words).ok_or(LineFault::Words)?;
    let a = trace(traces, a).ok_or(LineFault::Number)?;
    let b = trace(traces, b).ok_or(LineFault::Number)?;
    let to = position(to).ok_or(LineFault::Number)?;
    let from = position(from).ok_or(LineFault::Number)?;
    Ok(samples(alloc, a, b, from, to, 1))
}

// Samples of traces a to b.
fn samples(alloc: Global, a: u32, b: u32, from: u32, to: u32, step: u32) -> Command
    ensures { result ≡ samples_of_each a b from to step }
{
    let chosen = Chosen {
        traces: Some((a, b)),
        conditions: Items::new(Vec::new(alloc)),
    };
    let range = SampleRange { from, to, step };
    Command::Ask(Query::OfChosen(chosen, ChosenQuery::Samples(range)))
}
