// The lines that are printed for a table.
ghost use Rattle.script_text.specs.AnswerTexts.{answer_text};
ghost use Rattle.line_texts.specs.Devices.{device_of};
ghost use Rattle.script_text.specs.HeaderTexts.{table_row_text};
ghost use Rattle.line_texts.specs.Printing.{Pushes};
ghost use Rattle.line_texts.specs.Lines.{with_line_end};
ghost use Rattle.bench_rules.specs.declared.answer.Answer.TheVariants as answers;

use crate::list_texts::push_head;
use bench_rules::Table;
use device_io::{Sink, WriteFault};
use line_texts::{OutBuffer, TextBuffer, TextFromEnd};
use std::io::Write;

/// Pushes the lines of a table. Takes no memory.
pub(crate) fn push_table<W: Write>(
    out: &mut OutBuffer,
    writer: &mut Sink<W>,
    table: &Table,
) -> Result<(), WriteFault>
    ensures { Pushes (device_of W.contents writer.old) (device_of W.contents writer.new)
        out.old out.new (answer_text (answers.Table table.now)) result }
{
    let count = table.count();
    let mut head = TextBuffer::new();
    push_head(&mut head, b"table", u64::from(count));
    out.push(writer, head.as_slice())?;
    for k in 0..count {
        let (position, numbers) = table.row(k);
        push_row(out, writer, position, numbers)?;
    }
    Ok(())
}

// Pushes the line of a row, which may have any number of numbers: each of them by itself.
fn push_row<W: Write>(
    out: &mut OutBuffer,
    writer: &mut Sink<W>,
    position: u32,
    numbers: &[i128],
) -> Result<(), WriteFault>
    ensures { Pushes (device_of W.contents writer.old) (device_of W.contents writer.new)
        out.old out.new (with_line_end (table_row_text (position, numbers.now))) result }
{
    let mut piece = TextFromEnd::new();
    piece.put_number(i128::from(position));
    out.push(writer, piece.as_slice())?;
    for number in numbers {
        piece.clear();
        piece.put_number(*number);
        piece.put_byte(b' ');
        out.push(writer, piece.as_slice())?;
    }
    out.push(writer, b"\n")
}
