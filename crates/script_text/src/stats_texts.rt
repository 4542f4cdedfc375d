// The lines that are printed for what the samples of many traces say.
ghost use Rattle.std.specs.Prelude.{◌≡◌, ◌≤◌, ◌+◌, ◌++◌, [], Some, codes, decimal, length};
ghost use Rattle.script_text.specs.AnswerTexts.{trace_ranks_text};
ghost use Rattle.script_text.specs.FloatTexts.{counted_stat_text, ends_in, greatest_of, least_of, shown_trace_text, sum_in, word_or_none};
ghost use Rattle.script_text.specs.ReportTexts.{counted_statistics_text, trace_statistics_text};

use crate::answer_texts::push_ranks;
use crate::float_texts::{greatest, least, push_named};
use crate::list_texts::Listed;
use bench_rules::{FloatTraceStatistics, TraceStatistics};
use line_texts::TextBuffer;
use shown_floats::{FloatWord, ShownEnds, ShownStatistics, ShownTrace};
use trace_record::Statistics;

// A trace begins with its position, and has no word before it.
impl Listed for TraceStatistics {
    ghost text = { λ _. trace_statistics_text };

    fn push_text(&self, line: &mut TextBuffer, _word: &[u8]) {
        match self.statistics {
            Some(found) => push_statistics(line, self.position, self.zeros, found),
            None => push_none(line, self.position),
        }
    }
}

fn push_none(line: &mut TextBuffer, position: u32)
    requires { line.old ≡ [] }
    ensures text { line.new ≡ decimal position ++ codes " none" }
    ensures short { length line.new ≤ 639 }
{
    line.push_number(position);
    line.push(b" none");
}

fn push_statistics(line: &mut TextBuffer, position: u32, zeros: u64, found: Statistics)
    requires { line.old ≡ [] }
    ensures text { line.new ≡ counted_statistics_text position zeros (Some found) }
    ensures short { length line.new ≤ 639 }
{
    line.push_number(position);
    line.push_numbered(b" least ", found.least);
    line.push_numbered(b" greatest ", found.greatest);
    line.push_numbered(b" sum ", found.sum);
    line.push_numbered(b" zeros ", zeros);
    line.push_numbered(b" samples ", found.number);
}

impl Listed for FloatTraceStatistics {
    ghost text = { λ _. trace_ranks_text };

    fn push_text(&self, line: &mut TextBuffer, _word: &[u8]) {
        match self.statistics {
            Some(found) => push_ranks(line, found),
            None => line.push(b"stat none"),
        }
        line.push_numbered(b" trace ", self.position);
        line.push_numbered(b" zeros ", self.zeros);
    }
}

impl Listed for ShownTrace {
    ghost text = { λ _. shown_trace_text };

    fn push_text(&self, line: &mut TextBuffer, _word: &[u8]) {
        match self.statistics {
            Some(found) => push_words(line, self.trace.position, self.trace.zeros, found),
            None => push_none(line, self.trace.position),
        }
    }
}

fn push_words(line: &mut TextBuffer, position: u32, zeros: u64, found: ShownStatistics)
    requires { line.old ≡ [] }
    ensures text { line.new ≡ counted_stat_text position zeros (Some found) }
    ensures short { length line.new ≤ 639 }
{
    line.push_number(position);
    push_numbers(line, found.of_numbers);
    line.push_numbered(b" zeros ", zeros);
    line.push_numbered(b" samples ", found.number);
    line.push_numbered(b" nans ", found.no_numbers);
}

// What the samples say that are numbers.
fn push_numbers(line: &mut TextBuffer, found: Option<(ShownEnds, FloatWord)>)
    requires { length line.old ≤ 200 }
    ensures text { line.new ≡ line.old ++ (codes " least " ++ (word_or_none (least_of
        (ends_in found)) ++ (codes " greatest " ++ (word_or_none (greatest_of (ends_in found))
        ++ (codes " sum " ++ word_or_none (sum_in found)))))) }
    ensures short { length line.new ≤ length line.old + 135 }
{
    let (ends, sum) = match found {
        Some((ends, sum)) => (Some(ends), Some(sum)),
        None => (None, None),
    };
    push_named(line, b" least ", least(ends));
    push_named(line, b" greatest ", greatest(ends));
    push_named(line, b" sum ", sum);
}
