// The line that is printed for the grid of a survey.
ghost use Rattle.std.specs.Prelude.{◌≡◌, ◌≤◌, ◌+◌, ◌++◌, [], Some, length};
ghost use Rattle.script_text.specs.SurveyTexts.{difference_text, grid_text, span_text, step_text, survey_text};
ghost use Rattle.line_texts.specs.Lines.{with_line_end};

use crate::report_texts::push_fraction;
use cell_positions::SurveyGrid;
use line_problems::LineSpan;
use line_texts::TextBuffer;
use position_differences::Difference;

/// The line of the grid of a survey.
pub(crate) fn survey_line(grid: Option<SurveyGrid>) -> TextBuffer
    ensures { result ≡ with_line_end (survey_text grid) }
{
    let mut line = TextBuffer::new();
    match grid {
        Some(grid) => push_grid(&mut line, grid),
        None => line.push(b"survey none"),
    }
    line.push(b"\n");
    line
}

// A grid.
fn push_grid(line: &mut TextBuffer, grid: SurveyGrid)
    requires { line.old ≡ [] }
    ensures text { line.new ≡ grid_text grid }
    ensures short { length line.new ≤ 639 }
{
    push_span(line, b"survey inline ", grid.inline);
    push_span(line, b" crossline ", grid.crossline);
    push_difference(line, b" along_inline ", grid.along_inline);
    push_difference(line, b" along_crossline ", grid.along_crossline);
    line.push_numbered(b" cells ", grid.cells);
    line.push_numbered(b" of ", grid.full);
}

// Lines behind their words.
fn push_span(line: &mut TextBuffer, words: &[u8], span: LineSpan)
    requires room { length line.old ≤ 200 }
    requires words { length words.now ≤ 20 }
    ensures text { line.new ≡ line.old ++ (words.now ++ span_text span) }
    ensures short { length line.new ≤ length line.old + length words.now + 127 }
{
    line.push_numbered(words, span.first);
    line.push_spaced(span.last);
    line.push(b" step ");
    push_step(line, span.step);
}

// The step from a line to the next.
fn push_step(line: &mut TextBuffer, step: Option<i64>)
    requires { length line.old ≤ 500 }
    ensures text { line.new ≡ line.old ++ step_text step }
    ensures short { length line.new ≤ length line.old + 40 }
{
    match step {
        Some(step) => line.push_number(step),
        None => line.push(b"none"),
    }
}

// How far neighbouring cells stand apart, behind its words.
fn push_difference(line: &mut TextBuffer, words: &[u8], difference: Option<Difference>)
    requires room { length line.old ≤ 420 }
    requires words { length words.now ≤ 20 }
    ensures text { line.new ≡ line.old ++ (words.now ++ difference_text difference) }
    ensures short { length line.new ≤ length line.old + length words.now + 103 }
{
    line.push(words);
    match difference {
        Some(difference) => push_both(line, difference),
        None => line.push(b"none"),
    }
}

// The fractions of x and of y.
fn push_both(line: &mut TextBuffer, difference: Difference)
    requires { length line.old ≤ 440 }
    ensures text { line.new ≡ line.old ++ difference_text (Some difference) }
    ensures short { length line.new ≤ length line.old + 103 }
{
    push_fraction(line, difference.x);
    line.push(b" ");
    push_fraction(line, difference.y);
}
