// The lines that are printed for what is wrong or doubtful with a file whose samples are floats.
ghost use Rattle.std.specs.Prelude.{◌≡◌, ◌≤◌, [], length, count_by};
ghost use Rattle.line_texts.specs.Devices.{device_of};
ghost use Rattle.script_text.specs.FloatTexts.{float_name as name_of_float, float_problem_text, float_problems_text, float_run_text};
ghost use Rattle.line_texts.specs.Printing.{Pushes};
ghost use Rattle.script_text.specs.ProblemTexts.{begins_problem};

use crate::list_texts::{Listed, push_counted};
use crate::problem_texts::begins;
use bench_rules::ProblemLine;
use device_io::{Sink, WriteFault};
use line_texts::{OutBuffer, TextBuffer};
use shown_floats::{FloatWord, ShownProblem};
use std::io::Write;
use trace_groups::{Run, TraceProblem};

/// Pushes the lines of what is wrong or doubtful. Takes no memory.
pub(crate) fn push_float_problems<W: Write>(
    out: &mut OutBuffer,
    writer: &mut Sink<W>,
    lines: &[ShownProblem],
) -> Result<(), WriteFault>
    ensures { Pushes (device_of W.contents writer.old) (device_of W.contents writer.new)
        out.old out.new (float_problems_text lines.now) result }
{
    push_counted(out, writer, b"problems", problems_in(lines), b"", lines)
}

// How many problems the lines tell of.
fn problems_in(lines: &[ShownProblem]) -> u64
    ensures { result ≡ count_by (λ p. begins_problem p.line) lines.now }
{
    let mut count = 0;
    for shown in lines {
        if begins(shown.line) {
            count += 1;
        }
    }
    count
}

impl Listed for ShownProblem {
    ghost text = { λ _. float_problem_text };

    fn push_text(&self, line: &mut TextBuffer, word: &[u8]) {
        match (self.line, self.word) {
            (ProblemLine::Run(problem, run), Some(float)) => push_run(line, problem, run, float),
            (problem, _float) => problem.push_text(line, word),
        }
    }
}

// A run of traces with the word of its float.
fn push_run(line: &mut TextBuffer, problem: TraceProblem, run: Run, float: FloatWord)
    requires { line.old ≡ [] }
    ensures text { line.new ≡ float_run_text problem run float }
    ensures short { length line.new ≤ 639 }
{
    line.push_numbered(b"run ", run.first);
    line.push_spaced(run.last);
    line.push_byte(b' ');
    line.push(float_name(problem));
    line.push_byte(b' ');
    line.push(float.as_slice());
}

// What the float is that a run of traces with this problem tells of.
fn float_name(problem: TraceProblem) -> &'static [u8]
    ensures text { result.now ≡ name_of_float problem }
    ensures short { length result.now ≤ 6 }
{
    match problem {
        TraceProblem::Loud => b"amount",
        _ => b"value",
    }
}
