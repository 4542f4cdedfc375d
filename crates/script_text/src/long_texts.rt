// The lines that are printed for texts, and for lists of what has a text.
ghost use Rattle.std.specs.Prelude.{◌≡◌, ◌≤◌, ◌++◌, ℕ, List, length, map};
ghost use Rattle.text_block.specs.Lines.{without_blanks as without_blanks_of};
ghost use Rattle.line_texts.specs.Devices.{device_of};
ghost use Rattle.line_texts.specs.Printing.{Pushes};
ghost use Rattle.line_texts.specs.Lines.{list_lines, with_line_end};
ghost use Rattle.script_text.specs.Texts.{place_text};
ghost use Rattle.script_text.specs.AnswerTexts.{shown_text, stanza_text, field_text};

use crate::list_texts::push_head;
use bench_rules::Text;
use device_io::{Sink, WriteFault};
use field_map::Place;
use line_texts::{OutBuffer, TextBuffer};
use std::io::Write;

/// What has a line of any length in a list.
pub(crate) trait LongLine {
    ghost text: { Self → List ℕ };

    /// Pushes the line. Takes no memory.
    fn push_line<W: Write>(
        &self,
        out: &mut OutBuffer,
        writer: &mut Sink<W>,
    ) -> Result<(), WriteFault>
        ensures { Pushes (device_of W.contents writer.old) (device_of W.contents writer.new)
            out.old out.new (with_line_end (text self.now)) result };
}

/// Pushes the lines of a list. Takes no memory.
pub(crate) fn push_long_list<W: Write, T: LongLine>(
    out: &mut OutBuffer,
    writer: &mut Sink<W>,
    list: &[u8],
    items: &[T],
) -> Result<(), WriteFault>
    requires { length list.now ≤ 20 }
    ensures { Pushes (device_of W.contents writer.old) (device_of W.contents writer.new)
        out.old out.new (list_lines list.now (map T.text items.now)) result }
{
    let mut head = TextBuffer::new();
    push_head(&mut head, list, items.len() as u64);
    out.push(writer, head.as_slice())?;
    for item in items {
        item.push_line(out, writer)?;
    }
    Ok(())
}

/// Pushes a text of any length between two others.
pub(crate) fn push_between<W: Write>(
    out: &mut OutBuffer,
    writer: &mut Sink<W>,
    before: &[u8],
    text: &[u8],
    behind: &[u8],
) -> Result<(), WriteFault>
    ensures { Pushes (device_of W.contents writer.old) (device_of W.contents writer.new)
        out.old out.new (before.now ++ (text.now ++ behind.now)) result }
{
    out.push(writer, before)?;
    out.push(writer, text)?;
    out.push(writer, behind)
}

// A shown line, without the blanks at its end.
impl LongLine for Text {
    ghost text = { shown_text };

    fn push_line<W: Write>(
        &self,
        out: &mut OutBuffer,
        writer: &mut Sink<W>,
    ) -> Result<(), WriteFault> {
        let text = without_blanks(self.as_str().as_bytes());
        push_between(out, writer, b"line |", text, b"|\n")
    }
}

// The text without the blanks at its end.
fn without_blanks(text: &[u8]) -> &[u8]
    ensures { result.now ≡ without_blanks_of text.now }
{
    let mut end = text.len();
    while end > 0 && text[end - 1] == b' ' {
        end -= 1;
    }
    &text[..end]
}

// A stanza's block and its name.
impl LongLine for (u64, Text) {
    ghost text = { stanza_text };

    fn push_line<W: Write>(
        &self,
        out: &mut OutBuffer,
        writer: &mut Sink<W>,
    ) -> Result<(), WriteFault> {
        let mut head = TextBuffer::new();
        head.push_numbered(b"stanza ", self.0);
        head.push(b" ");
        push_between(
            out,
            writer,
            head.as_slice(),
            self.1.as_str().as_bytes(),
            b"\n",
        )
    }
}

// A bound name and its place.
impl LongLine for (Text, Place) {
    ghost text = { field_text };

    fn push_line<W: Write>(
        &self,
        out: &mut OutBuffer,
        writer: &mut Sink<W>,
    ) -> Result<(), WriteFault> {
        let mut tail = TextBuffer::new();
        tail.push(b" ");
        push_place(&mut tail, self.1);
        tail.push(b"\n");
        push_between(
            out,
            writer,
            b"field ",
            self.0.as_str().as_bytes(),
            tail.as_slice(),
        )
    }
}

// A place as a script has it.
fn push_place(line: &mut TextBuffer, place: Place)
    requires { length line.old ≤ 100 }
    ensures text { line.new ≡ line.old ++ place_text place }
    ensures short { length line.new ≤ 600 }
{
    line.push(b"@");
    if place.extension != 0 {
        line.push_number(place.extension);
        line.push(b".");
    }
    line.push_number(place.byte);
    line.push(b":");
    line.push_number(place.kind.size);
    if !place.kind.signed {
        line.push(b"u");
    }
}
