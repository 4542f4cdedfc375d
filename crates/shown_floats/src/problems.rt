// The words of the floats that problems of traces tell.
ghost use Rattle.std.specs.Prelude.{◌≡◌, IfOk, IsErr};
ghost use Rattle.room.specs.Refusals.{Rises};
ghost use Rattle.shown_floats.specs.Shows.{ShowsAny, ShowsProblems, rank_in, tells_sample as tells_sample_of};

use crate::float_answer::ShownProblem;
use crate::float_word::FloatWord;
use bench_rules::{Items, ProblemLine};
use float_codes::FloatFormat;
use room::{OutOfMemory, Room};
use trace_groups::TraceProblem;

/// The lines, each with the word of its float where it tells of one. Takes memory.
pub(crate) fn problems(
    room: &mut Room,
    format: FloatFormat,
    lines: &[ProblemLine],
) -> Result<Items<ShownProblem>, OutOfMemory>
    ensures shown { IfOk result (λ shown. ShowsProblems format lines.now shown) }
    ensures memory { Rises (IsErr result) room.old room.new }
{
    let mut shown = room.told(Vec::with_capacity(room.alloc(), lines.len()))?;
    for line in lines {
        room.told_back(shown.push(ShownProblem {
            line: *line,
            word: word(format, *line),
        }))?;
    }
    Ok(Items::new(shown))
}

// The word of the float that a line tells of.
fn word(format: FloatFormat, line: ProblemLine) -> Option<FloatWord>
    ensures { ShowsAny format (rank_in line) result }
{
    let ProblemLine::Run(problem, run) = line else {
        return None;
    };
    if !tells_sample(problem) {
        return None;
    }
    let (rank, _other) = run.facts;
    Some(FloatWord::of(format, rank))
}

// Whether a run of traces with this problem tells of a sample.
fn tells_sample(problem: TraceProblem) -> bool
    ensures { result ≡ tells_sample_of problem }
{
    matches!(problem, TraceProblem::Dead | TraceProblem::Loud)
}
