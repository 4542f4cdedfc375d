// The lines that are printed for answers about samples that are floats.
ghost use Rattle.std.specs.Prelude.{◌≡◌, ◌≤◌, ◌+◌, ◌++◌, [], codes, length};
ghost use Rattle.shown_floats.specs.Shows.{word_of};
ghost use Rattle.line_texts.specs.Devices.{device_of};
ghost use Rattle.script_text.specs.FloatTexts.{float_answer_text, float_row_text, stat_text, totals_text, word_or_none, least_of, greatest_of};
ghost use Rattle.line_texts.specs.Printing.{Pushes};
ghost use Rattle.line_texts.specs.Lines.{with_line_end};

use crate::float_problem_texts::push_float_problems;
use crate::list_texts::{Listed, push_list};
use device_io::{Sink, WriteFault};
use line_texts::{OutBuffer, TextBuffer};
use shown_floats::{FloatAnswer, FloatRow, FloatWord, ShownEnds, ShownStatistics, ShownTotals};
use std::io::Write;

/// Pushes the lines of an answer. Takes no memory.
pub(crate) fn push_floats<W: Write>(
    out: &mut OutBuffer,
    writer: &mut Sink<W>,
    answer: &FloatAnswer,
) -> Result<(), WriteFault>
    ensures { Pushes (device_of W.contents writer.old) (device_of W.contents writer.new)
        out.old out.new (float_answer_text answer.now) result }
{
    match answer {
        FloatAnswer::Value(word) => out.push(writer, value_line(*word).as_slice()),
        FloatAnswer::Stat(found) => out.push(writer, stat_line(*found).as_slice()),
        FloatAnswer::Totals(found) => out.push(writer, totals_line(*found).as_slice()),
        FloatAnswer::Slice(rows) => push_list(out, writer, b"slice", b"row", rows.as_slice()),
        FloatAnswer::Problems(lines) => push_float_problems(out, writer, lines.as_slice()),
        FloatAnswer::Stats(traces) => push_list(out, writer, b"stats", b"", traces.as_slice()),
    }
}

fn value_line(word: FloatWord) -> TextBuffer
    ensures { result ≡ with_line_end (codes "value " ++ word_of word) }
{
    let mut line = TextBuffer::new();
    push_named(&mut line, b"value ", Some(word));
    line.push(b"\n");
    line
}

/// A word behind its name, or `none`.
pub(crate) fn push_named(line: &mut TextBuffer, name: &[u8], word: Option<FloatWord>)
    requires room { length line.old ≤ 400 }
    requires name { length name.now ≤ 20 }
    ensures text { line.new ≡ line.old ++ (name.now ++ word_or_none word) }
    ensures short { length line.new ≤ length line.old + 45 }
{
    line.push(name);
    match word {
        Some(word) => line.push(word.as_slice()),
        None => line.push(b"none"),
    }
}

pub(crate) fn least(ends: Option<ShownEnds>) -> Option<FloatWord>
    ensures { result ≡ least_of ends }
{
    Some(ends?.least)
}

pub(crate) fn greatest(ends: Option<ShownEnds>) -> Option<FloatWord>
    ensures { result ≡ greatest_of ends }
{
    Some(ends?.greatest)
}

fn stat_line(found: Option<ShownStatistics>) -> TextBuffer
    ensures { result ≡ with_line_end (stat_text found) }
{
    let mut line = TextBuffer::new();
    match found {
        Some(found) => push_stat(&mut line, found),
        None => line.push(b"stat none"),
    }
    line.push(b"\n");
    line
}

fn push_stat(line: &mut TextBuffer, found: ShownStatistics)
    requires { line.old ≡ [] }
    ensures text { line.new ≡ stat_text (Some found) }
    ensures short { length line.new ≤ 639 }
{
    let (ends, sum) = match found.of_numbers {
        Some((ends, sum)) => (Some(ends), Some(sum)),
        None => (None, None),
    };
    push_named(line, b"stat least ", least(ends));
    push_named(line, b" greatest ", greatest(ends));
    push_named(line, b" sum ", sum);
    line.push_numbered(b" samples ", found.number);
    line.push_numbered(b" nans ", found.no_numbers);
}

fn totals_line(found: Option<ShownTotals>) -> TextBuffer
    ensures { result ≡ with_line_end (totals_text found) }
{
    let mut line = TextBuffer::new();
    match found {
        Some(found) => push_totals(&mut line, found),
        None => line.push(b"totals none"),
    }
    line.push(b"\n");
    line
}

fn push_totals(line: &mut TextBuffer, found: ShownTotals)
    requires { line.old ≡ [] }
    ensures text { line.new ≡ totals_text (Some found) }
    ensures short { length line.new ≤ 639 }
{
    push_named(line, b"totals least ", least(found.ends));
    push_named(line, b" greatest ", greatest(found.ends));
    line.push_numbered(b" samples ", found.number);
    line.push_numbered(b" nans ", found.no_numbers);
}

impl Listed for FloatRow {
    ghost text = { float_row_text };

    fn push_text(&self, line: &mut TextBuffer, word: &[u8]) {
        line.push(word);
        line.push_spaced(self.row.inline);
        line.push_spaced(self.row.crossline);
        line.push_spaced(self.row.position);
        line.push_byte(b' ');
        line.push(self.word.as_slice());
    }
}
