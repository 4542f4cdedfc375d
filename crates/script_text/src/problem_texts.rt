// The lines that are printed for what is wrong or doubtful with a file.
ghost use Rattle.std.specs.Prelude.{◌≡◌, ◌≤◌, ◌+◌, ◌++◌, [], codes, decimal, length, count_by};
ghost use Rattle.std.specs.Fmt.{signed_decimal};
ghost use Rattle.line_texts.specs.Devices.{device_of};
ghost use Rattle.line_texts.specs.Printing.{Pushes};
ghost use Rattle.script_text.specs.ProblemTexts.{begins_problem, code_of_problem, fold_text, jumps_text, no_survey_text, problem_text, problems_text, run_text};

use crate::list_texts::{Listed, push_counted};
use bench_rules::ProblemLine;
use device_io::{Sink, WriteFault};
use line_problems::{NoSurvey, UnevenFold};
use line_texts::{OutBuffer, TextBuffer};
use std::io::Write;
use trace_groups::{Run, TraceProblem};

/// Pushes the lines of what is wrong or doubtful. Takes no memory.
pub(crate) fn push_problems<W: Write>(
    out: &mut OutBuffer,
    writer: &mut Sink<W>,
    lines: &[ProblemLine],
) -> Result<(), WriteFault>
    ensures { Pushes (device_of W.contents writer.old) (device_of W.contents writer.new)
        out.old out.new (problems_text lines.now) result }
{
    push_counted(out, writer, b"problems", problems_in(lines), b"", lines)
}

// How many problems the lines tell of.
fn problems_in(lines: &[ProblemLine]) -> u64
    ensures { result ≡ count_by begins_problem lines.now }
{
    let mut count = 0;
    for line in lines {
        if begins(*line) {
            count += 1;
        }
    }
    count
}

/// Whether the line begins a problem.
pub(crate) fn begins(line: ProblemLine) -> bool
    ensures { result ≡ begins_problem line }
{
    !matches!(
        line,
        ProblemLine::Run(..)
            | ProblemLine::Missing(_)
            | ProblemLine::Jump(_)
            | ProblemLine::SharedPosition(_)
    )
}

impl Listed for ProblemLine {
    ghost text = { λ _. problem_text };

    fn push_text(&self, line: &mut TextBuffer, _word: &[u8]) {
        match *self {
            ProblemLine::Traces(problem, traces, runs) => {
                line.push(b"problem ");
                line.push(code(problem));
                line.push_numbered(b" traces ", traces);
                line.push_numbered(b" runs ", runs);
            }
            ProblemLine::Run(problem, run) => push_run(line, problem, run),
            ProblemLine::TraceCount(count, traces) => {
                line.push_numbered(b"problem F7 count ", count);
                line.push_numbered(b" traces ", traces);
            }
            ProblemLine::TextLines(lines) => line.push_numbered(b"problem F8 lines ", lines),
            ProblemLine::NoSurvey(found) => push_no_survey(line, found),
            ProblemLine::MissingInlines(missing, runs) => {
                line.push_numbered(b"problem S7 missing ", missing);
                line.push_numbered(b" runs ", runs);
            }
            ProblemLine::MissingCrosslines(missing, runs) => {
                line.push_numbered(b"problem S8 missing ", missing);
                line.push_numbered(b" runs ", runs);
            }
            ProblemLine::Missing(run) => {
                line.push_numbered(b"run ", run.first);
                line.push_spaced(run.last);
                line.push_numbered(b" step ", run.step);
            }
            ProblemLine::Fold(fold) => push_fold(line, fold),
            ProblemLine::Jumps(pairs, jumps) => push_jumps(line, pairs, jumps),
            ProblemLine::Jump(pair) => push_pair(line, b"jump ", pair.earlier, pair.later),
            ProblemLine::SharedPositions(cells) => {
                line.push_numbered(b"problem S11 cells ", cells);
            }
            ProblemLine::SharedPosition(pair) => push_pair(line, b"run ", pair.later, pair.earlier),
        }
    }
}

fn code(problem: TraceProblem) -> &'static [u8]
    ensures text { result.now ≡ code_of_problem problem }
    ensures short { length result.now ≤ 3 }
{
    match problem {
        TraceProblem::Sequence => b"F1",
        TraceProblem::Samples => b"F2",
        TraceProblem::Interval => b"F3",
        TraceProblem::Scalar => b"F4",
        TraceProblem::Units => b"F5",
        TraceProblem::Repeated => b"F6",
        TraceProblem::Name => b"F9",
        TraceProblem::NoPosition => b"S2",
        TraceProblem::OtherScalar => b"S3",
        TraceProblem::OtherDelay => b"S4",
        TraceProblem::FarInline => b"S5",
        TraceProblem::FarCrossline => b"S6",
        TraceProblem::Dead => b"S12",
        TraceProblem::Loud => b"S13",
    }
}

// A run of traces.
fn push_run(line: &mut TextBuffer, problem: TraceProblem, run: Run)
    requires { line.old ≡ [] }
    ensures text { line.new ≡ run_text problem run }
    ensures short { length line.new ≤ 639 }
{
    line.push_numbered(b"run ", run.first);
    line.push_spaced(run.last);
    let (fact, other) = run.facts;
    match problem {
        TraceProblem::Sequence => push_one(line, b" shift ", fact),
        TraceProblem::Samples => push_two(line, b" field ", fact, b" samples ", other),
        TraceProblem::Interval => push_two(line, b" interval ", fact, b" binary ", other),
        TraceProblem::Scalar => push_one(line, b" scalar ", fact),
        TraceProblem::Units => push_two(line, b" units ", fact, b" first ", other),
        TraceProblem::Repeated => push_one(line, b" before ", fact),
        TraceProblem::Name | TraceProblem::NoPosition => (),
        TraceProblem::OtherScalar => push_two(line, b" scalar ", fact, b" usual ", other),
        TraceProblem::OtherDelay => push_two(line, b" delay ", fact, b" usual ", other),
        TraceProblem::FarInline => push_one(line, b" inline ", fact),
        TraceProblem::FarCrossline => push_one(line, b" crossline ", fact),
        TraceProblem::Dead => push_one(line, b" value ", fact),
        TraceProblem::Loud => push_one(line, b" amount ", fact),
    }
}

// A number behind its words.
fn push_one(line: &mut TextBuffer, words: &[u8], number: i128)
    requires room { length line.old ≤ 120 }
    requires words { length words.now ≤ 20 }
    ensures text { line.new ≡ line.old ++ (words.now ++ signed_decimal number) }
    ensures short { length line.new ≤ length line.old + 60 }
{
    line.push_numbered(words, number);
}

// Two numbers, each behind its words.
fn push_two(line: &mut TextBuffer, words: &[u8], number: i128, more: &[u8], other: i128)
    requires room { length line.old ≤ 120 }
    requires words { length words.now ≤ 20 }
    requires more { length more.now ≤ 20 }
    ensures text { line.new ≡ line.old ++ (words.now ++ signed_decimal number)
        ++ (more.now ++ signed_decimal other) }
    ensures short { length line.new ≤ length line.old + 120 }
{
    line.push_numbered(words, number);
    line.push_numbered(more, other);
}

// All traces have one inline and crossline.
fn push_no_survey(line: &mut TextBuffer, found: NoSurvey)
    requires { line.old ≡ [] }
    ensures text { line.new ≡ no_survey_text found }
    ensures short { length line.new ≤ 639 }
{
    line.push_numbered(b"problem S1 traces ", found.traces);
    line.push_numbered(b" inline ", found.inline);
    line.push_numbered(b" crossline ", found.crossline);
}

// How many cells have another fold.
fn push_fold(line: &mut TextBuffer, fold: UnevenFold)
    requires { line.old ≡ [] }
    ensures text { line.new ≡ fold_text fold }
    ensures short { length line.new ≤ 639 }
{
    line.push_numbered(b"problem S9 cells ", fold.cells);
    line.push_numbered(b" usual ", fold.usual);
    line.push_numbered(b" less ", fold.less);
    line.push_numbered(b" more ", fold.more);
    line.push_numbered(b" least ", fold.least);
    line.push_numbered(b" greatest ", fold.greatest);
}

// How many pairs of neighbouring cells there are, and how many of them jump.
fn push_jumps(line: &mut TextBuffer, pairs: u64, jumps: u64)
    requires { line.old ≡ [] }
    ensures text { line.new ≡ jumps_text pairs jumps }
    ensures short { length line.new ≤ 639 }
{
    line.push_numbered(b"problem S10 pairs ", pairs);
    line.push_numbered(b" jumps ", jumps);
}

// Two traces behind a word.
fn push_pair(line: &mut TextBuffer, word: &[u8], first: u32, second: u32)
    requires empty { line.old ≡ [] }
    requires word { length word.now ≤ 20 }
    ensures text { line.new ≡ word.now ++ (decimal first ++ (codes " " ++ decimal second)) }
    ensures short { length line.new ≤ 639 }
{
    line.push_numbered(word, first);
    line.push_spaced(second);
}
