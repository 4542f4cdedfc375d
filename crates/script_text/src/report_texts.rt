// The lines that are printed for reports.
ghost use Rattle.std.specs.Prelude.{◌≡◌, ◌≤◌, ◌+◌, ◌∷◌, ◌++◌, [], Some, codes, decimal, length};
ghost use Rattle.std.specs.Fmt.{signed_decimal};
ghost use Rattle.script_text.specs.ReportTexts.{location_text, fraction_text, statistics_text, range_text, cell_text, numbered_text, fold_count_text, row_text, fault_text};
ghost use Rattle.line_texts.specs.Lines.{with_blanks, with_line_end};

use crate::list_texts::{Listed, ListedFromEnd};
use bench_rules::{Location, Row};
use fault_live::Fault;
use grid_live::{Cell, FoldCount, Line};
use itoa::Integer;
use key_counts::Ratio;
use line_texts::{TextBuffer, TextFromEnd};
use trace_record::Statistics;

/// The line of where a trace lies.
pub(crate) fn location_line(location: Location) -> TextBuffer
    ensures { result ≡ with_line_end (location_text location) }
{
    let mut line = TextBuffer::new();
    line.push_numbered(b"geometry inline ", location.inline);
    line.push_numbered(b" crossline ", location.crossline);
    line.push_numbered(b" offset ", location.offset);
    line.push(b" x ");
    push_fraction(&mut line, location.x);
    line.push(b" y ");
    push_fraction(&mut line, location.y);
    line.push(b"\n");
    line
}

/// A fraction, or a whole number alone.
pub(crate) fn push_fraction(line: &mut TextBuffer, ratio: Ratio)
    requires { length line.old ≤ 500 }
    ensures text { line.new ≡ line.old ++ fraction_text ratio }
    ensures short { length line.new ≤ length line.old + 51 }
{
    line.push_number(ratio.num);
    if ratio.den != 1 {
        push_denominator(line, ratio.den);
    }
}

// What a number is over: ten digits at most.
fn push_denominator(line: &mut TextBuffer, den: u32)
    requires { length line.old ≤ 540 }
    ensures text { line.new ≡ line.old ++ (codes "/" ++ decimal den) }
    ensures short { length line.new ≤ length line.old + 11 }
{
    line.push_numbered(b"/", den);
}

/// The line of statistics, behind this word.
pub(crate) fn statistics_line(word: &[u8], found: Option<Statistics>) -> TextBuffer
    requires { length word.now ≤ 20 }
    ensures { result ≡ with_line_end (statistics_text word.now found) }
{
    let mut line = TextBuffer::new();
    line.push(word);
    match found {
        Some(statistics) => push_statistics(&mut line, statistics),
        None => line.push(b" none"),
    }
    line.push(b"\n");
    line
}

// Statistics, behind what is there.
fn push_statistics(line: &mut TextBuffer, found: Statistics)
    requires { length line.old ≤ 20 }
    ensures text { line.new ≡ statistics_text line.old (Some found) }
    ensures short { length line.new ≤ 639 }
{
    line.push_numbered(b" least ", found.least);
    line.push_numbered(b" greatest ", found.greatest);
    line.push_numbered(b" sum ", found.sum);
    line.push_numbered(b" samples ", found.number);
}

/// The line of the least and the greatest value.
pub(crate) fn range_line(range: Option<(Ratio, Ratio)>) -> TextBuffer
    ensures { result ≡ with_line_end (range_text range) }
{
    let mut line = TextBuffer::new();
    line.push(b"range ");
    match range {
        Some((least, greatest)) => {
            push_fraction(&mut line, least);
            line.push(b" ");
            push_fraction(&mut line, greatest);
        }
        None => line.push(b"none"),
    }
    line.push(b"\n");
    line
}

// A list of cells or rows may have a line for each trace: they are written with few steps.
impl ListedFromEnd for Cell {
    ghost text = { cell_text };

    fn put_text(&self, line: &mut TextFromEnd, word: &[u8]) {
        put_at_cell(
            line,
            word,
            self.inline,
            self.crossline,
            i128::from(self.fold),
        );
    }
}

// Writes a word, an inline, a crossline and another number in front of what is there.
#[inline(always)]
fn put_at_cell(line: &mut TextFromEnd, word: &[u8], inline: i32, crossline: i32, number: i128)
    requires room { length line.old ≤ 43 }
    requires word { length word.now ≤ 20 }
    ensures { line.new ≡ with_blanks (word.now ∷ signed_decimal inline
        ∷ signed_decimal crossline ∷ signed_decimal number ∷ []) ++ line.old }
{
    line.put_number(number);
    line.put_byte(b' ');
    line.put_number(i128::from(crossline));
    line.put_byte(b' ');
    line.put_number(i128::from(inline));
    line.put_byte(b' ');
    line.put(word);
}

impl Listed for Line {
    ghost text = { numbered_text };

    fn push_text(&self, line: &mut TextBuffer, word: &[u8]) {
        line.push(word);
        line.push_spaced(self.number);
        line.push_spaced(self.traces);
    }
}

impl Listed for FoldCount {
    ghost text = { fold_count_text };

    fn push_text(&self, line: &mut TextBuffer, word: &[u8]) {
        line.push(word);
        line.push_spaced(self.fold);
        line.push_spaced(self.cells);
    }
}

impl ListedFromEnd for Row {
    ghost text = { row_text };

    fn put_text(&self, line: &mut TextFromEnd, word: &[u8]) {
        line.put_number(self.value);
        line.put_byte(b' ');
        put_at_cell(
            line,
            word,
            self.inline,
            self.crossline,
            i128::from(self.position),
        );
    }
}

// A fault begins with its code, and has no word before it.
impl Listed for Fault {
    ghost text = { λ _. fault_text };

    fn push_text(&self, line: &mut TextBuffer, _word: &[u8]) {
        push_fault(line, *self);
    }
}

// A fault of the headers.
fn push_fault(line: &mut TextBuffer, fault: Fault)
    requires { line.old ≡ [] }
    ensures text { line.new ≡ fault_text fault }
    ensures short { length line.new ≤ 639 }
{
    match fault {
        Fault::Sequence(p, sequence) => push_two(line, b"F1 trace ", p, b" sequence ", sequence),
        Fault::Samples(p, field, samples) => {
            push_two(line, b"F2 trace ", p, b" field ", field);
            line.push_numbered(b" samples ", samples);
        }
        Fault::Interval(p, interval, binary) => {
            push_two(line, b"F3 trace ", p, b" interval ", interval);
            line.push_numbered(b" binary ", binary);
        }
        Fault::Scalar(p, scalar) => push_two(line, b"F4 trace ", p, b" scalar ", scalar),
        Fault::Units(p, units, first) => {
            push_two(line, b"F5 trace ", p, b" units ", units);
            line.push_numbered(b" first ", first);
        }
        Fault::Repeated(p, first) => push_two(line, b"F6 trace ", p, b" first ", first),
        Fault::TraceCount(count, traces) => {
            push_two(line, b"F7 count ", count, b" traces ", traces);
        }
        Fault::TextLines(lines) => line.push_numbered(b"F8 lines ", lines),
        Fault::Name(p) => {
            line.push_numbered(b"F9 trace ", p);
            line.push(b" name");
        }
    }
}

// A number behind its words, and another one behind its own.
fn push_two<I: Integer, J: Integer>(
    line: &mut TextBuffer,
    words: &[u8],
    number: I,
    more: &[u8],
    other: J,
)
    requires empty { line.old ≡ [] }
    requires words { length words.now ≤ 20 }
    requires more { length more.now ≤ 20 }
    ensures text { line.new ≡ words.now ++ (I.text number ++ (more.now ++ J.text other)) }
    ensures short { length line.new ≤ 120 }
{
    line.push_numbered(words, number);
    line.push_numbered(more, other);
}
