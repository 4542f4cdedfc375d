// The lines that are printed for answers.
ghost use Rattle.std.specs.Prelude.{◌≡◌, ◌≤◌, ◌+◌, ◌++◌, [], Some, length, codes};
ghost use Rattle.script_text.specs.AnswerTexts.{answer_text, ranks_text, info_text, order_text, yes_or_no, code_text, tail_text};
ghost use Rattle.line_texts.specs.Devices.{device_of};
ghost use Rattle.line_texts.specs.Printing.{Pushes};
ghost use Rattle.line_texts.specs.Lines.{with_line_end};

use crate::list_texts::{push_list, push_list_from_end};
use crate::long_texts::{LongLine, push_long_list};
use crate::problem_texts::push_problems;
use crate::report_texts::{location_line, range_line, statistics_line};
use crate::section_texts::push_section_head;
use crate::survey_texts::survey_line;
use crate::table_texts::push_table;
use bench_rules::{Answer, FloatStatistics, Info};
use device_io::{Sink, WriteFault};
use itoa::Integer;
use line_texts::{OutBuffer, TextBuffer};
use num_order::Order;
use std::io::Write;
use text_block::Code;

/// Pushes the lines of an answer. Takes no memory.
pub(crate) fn push_answer<W: Write>(
    out: &mut OutBuffer,
    writer: &mut Sink<W>,
    answer: &Answer,
) -> Result<(), WriteFault>
    ensures { Pushes (device_of W.contents writer.old) (device_of W.contents writer.new)
        out.old out.new (answer_text answer.now) result }
{
    match answer {
        Answer::Line(line) => line.push_line(out, writer),
        Answer::Lines(lines) => push_long_list(out, writer, b"lines", lines.as_slice()),
        Answer::Stanzas(stanzas) => push_long_list(out, writer, b"stanzas", stanzas.as_slice()),
        Answer::Fields(fields) => push_long_list(out, writer, b"fields", fields.as_slice()),
        Answer::Header(fields) => push_long_list(out, writer, b"header", fields.as_slice()),
        Answer::Extremes(fields) => push_long_list(out, writer, b"extremes", fields.as_slice()),
        Answer::Table(table) => push_table(out, writer, table),
        Answer::Found(found) => push_list(out, writer, b"found", b"trace", found.as_slice()),
        Answer::Grid(cells) => push_list_from_end(out, writer, b"cells", b"cell", cells.as_slice()),
        Answer::Inlines(lines) => push_list(out, writer, b"inlines", b"inline", lines.as_slice()),
        Answer::Crosslines(lines) => {
            push_list(out, writer, b"crosslines", b"crossline", lines.as_slice())
        }
        Answer::Histogram(times) => push_list(
            out,
            writer,
            b"histogram",
            b"times",
            times.as_slice(),
        ),
        Answer::Slice(rows) => push_list_from_end(out, writer, b"slice", b"row", rows.as_slice()),
        Answer::Faults(faults) => push_list(out, writer, b"faults", b"", faults.as_slice()),
        Answer::Problems(lines) => push_problems(out, writer, lines.as_slice()),
        Answer::Count(count) => out.push(writer, numbered_line(b"traces ", *count).as_slice()),
        Answer::Stats(traces) => push_list(out, writer, b"stats", b"", traces.as_slice()),
        Answer::FloatStats(traces) => push_list(out, writer, b"stats", b"", traces.as_slice()),
        Answer::Section(section) => {
            push_section_head(out, writer, section.traces.as_slice().len() as u64)
        }
        Answer::Chosen(count) => out.push(writer, numbered_line(b"chosen ", *count).as_slice()),
        Answer::Info(info) => out.push(writer, info_line(*info).as_slice()),
        Answer::Value(value) => out.push(writer, numbered_line(b"value ", *value).as_slice()),
        Answer::Code(code) => out.push(writer, code_line(*code).as_slice()),
        Answer::Geometry(location) => out.push(writer, location_line(*location).as_slice()),
        Answer::Stat(found) => out.push(writer, statistics_line(b"stat", *found).as_slice()),
        Answer::FloatStat(found) => out.push(writer, ranks_line(*found).as_slice()),
        Answer::Fold(fold) => out.push(writer, numbered_line(b"fold ", *fold).as_slice()),
        Answer::Range(range) => out.push(writer, range_line(*range).as_slice()),
        Answer::Survey(grid) => out.push(writer, survey_line(*grid).as_slice()),
        Answer::Totals(found) => out.push(writer, statistics_line(b"totals", *found).as_slice()),
    }
}

// The line of ranks.
fn ranks_line(found: Option<FloatStatistics>) -> TextBuffer
    ensures { result ≡ with_line_end (ranks_text found) }
{
    let mut line = TextBuffer::new();
    match found {
        Some(found) => push_ranks(&mut line, found),
        None => line.push(b"stat none"),
    }
    line.push(b"\n");
    line
}

/// Statistics as ranks.
pub(crate) fn push_ranks(line: &mut TextBuffer, found: FloatStatistics)
    requires { line.old ≡ [] }
    ensures text { line.new ≡ ranks_text (Some found) }
    ensures short { length line.new ≤ 200 }
{
    line.push_numbered(b"stat ranks ", found.least);
    line.push_numbered(b" ", found.greatest);
    line.push_numbered(b" ", found.sum);
}

/// The line of one number behind its word, which ends with a blank.
pub(crate) fn numbered_line<I: Integer>(word: &[u8], number: I) -> TextBuffer
    requires { length word.now ≤ 100 }
    ensures { result ≡ with_line_end (word.now ++ I.text number) }
{
    let mut line = TextBuffer::new();
    line.push_numbered(word, number);
    line.push(b"\n");
    line
}

// The line of the code of a block.
fn code_line(code: Code) -> TextBuffer
    ensures { result ≡ with_line_end (codes "code " ++ code_text code) }
{
    let mut line = TextBuffer::new();
    line.push(b"code ");
    line.push(match code {
        Code::Ebcdic => b"ebcdic".as_slice(),
        Code::Ascii => b"ascii",
    });
    line.push(b"\n");
    line
}

// The line of what a file is.
fn info_line(info: Info) -> TextBuffer
    ensures { result ≡ with_line_end (info_text info) }
{
    let mut line = TextBuffer::new();
    push_info(&mut line, info);
    line.push(b"\n");
    line
}

// What a file is.
fn push_info(line: &mut TextBuffer, info: Info)
    requires { line.old ≡ [] }
    ensures text { line.new ≡ info_text info }
    ensures short { length line.new ≤ 639 }
{
    line.push(b"info order ");
    line.push(order(info.head.order));
    line.push(b" revision ");
    line.push_number(info.head.major);
    line.push(b".");
    line.push_number(info.head.minor);
    line.push(b" format ");
    line.push_number(info.head.format.code());
    line.push(b" samples ");
    line.push_number(info.head.samples);
    line.push(b" fixed ");
    line.push(answer_of(info.head.fixed));
    line.push(b" extensions ");
    line.push_number(info.head.extensions);
    line.push(b" blocks ");
    line.push_number(info.head.blocks);
    line.push(b" trailer ");
    line.push_number(info.head.trailer);
    line.push(b" traces ");
    line.push_number(info.traces);
    line.push(b" bytes ");
    line.push_number(info.bytes);
    push_tail(line, info.tail);
}

// How many bytes are of no trace, where that is told.
fn push_tail(line: &mut TextBuffer, tail: Option<u64>)
    requires { length line.old ≤ 500 }
    ensures text { line.new ≡ line.old ++ tail_text tail }
    ensures short { length line.new ≤ length line.old + 46 }
{
    if let Some(bytes) = tail {
        line.push_numbered(b" tail ", bytes);
    }
}

fn order(order: Order) -> &'static [u8]
    ensures text { result.now ≡ order_text order }
    ensures short { length result.now ≤ 6 }
{
    match order {
        Order::Big => b"big",
        Order::Little => b"little",
    }
}

fn answer_of(yes: bool) -> &'static [u8]
    ensures text { result.now ≡ yes_or_no yes }
    ensures short { length result.now ≤ 3 }
{
    if yes { b"yes" } else { b"no" }
}
