// The lines that are printed for a list: its word and their number, and then one for each item.
ghost use Rattle.std.specs.Prelude.{◌≡◌, ◌≤◌, ◌++◌, ℕ, List, [], length, map, codes, decimal};
ghost use Rattle.line_texts.specs.Devices.{device_of};
ghost use Rattle.line_texts.specs.Printing.{Pushes};
ghost use Rattle.line_texts.specs.Lines.{counted_lines, list_lines, with_line_end};

use device_io::{Sink, WriteFault};
use line_texts::{OutBuffer, TextBuffer, TextFromEnd};
use std::io::Write;

/// What has a short line in a list, behind a word that the list gives to each line.
pub(crate) trait Listed {
    ghost text: { List ℕ → Self → List ℕ };

    /// Writes the line without its end.
    fn push_text(&self, line: &mut TextBuffer, word: &[u8])
        requires empty { line.old ≡ [] }
        requires word { length word.now ≤ 20 }
        ensures text { line.new ≡ text word.now self.now }
        ensures short { length line.new ≤ 639 };
}

/// What has a line of numbers in a long list, built from its end, behind a word that the list gives
/// to each line.
pub(crate) trait ListedFromEnd {
    ghost text: { List ℕ → Self → List ℕ };

    /// Writes the line in front of its end.
    fn put_text(&self, line: &mut TextFromEnd, word: &[u8])
        requires end { line.old ≡ codes "\n" }
        requires word { length word.now ≤ 20 }
        ensures { line.new ≡ with_line_end (text word.now self.now) };
}

/// Pushes the lines of a list. Takes no memory.
pub(crate) fn push_list<W: Write, T: Listed>(
    out: &mut OutBuffer,
    writer: &mut Sink<W>,
    list: &[u8],
    word: &[u8],
    items: &[T],
) -> Result<(), WriteFault>
    requires list { length list.now ≤ 20 }
    requires word { length word.now ≤ 20 }
    ensures { Pushes (device_of W.contents writer.old) (device_of W.contents writer.new)
        out.old out.new (list_lines list.now (map (T.text word.now) items.now)) result }
{
    push_counted(out, writer, list, items.len() as u64, word, items)
}

/// Pushes the lines of a list behind one with its word and this number. Takes no memory.
pub(crate) fn push_counted<W: Write, T: Listed>(
    out: &mut OutBuffer,
    writer: &mut Sink<W>,
    list: &[u8],
    count: u64,
    word: &[u8],
    items: &[T],
) -> Result<(), WriteFault>
    requires list { length list.now ≤ 20 }
    requires word { length word.now ≤ 20 }
    ensures { Pushes (device_of W.contents writer.old) (device_of W.contents writer.new)
        out.old out.new (counted_lines list.now count (map (T.text word.now) items.now)) result }
{
    let mut line = TextBuffer::new();
    push_head(&mut line, list, count);
    out.push(writer, line.as_slice())?;
    for item in items {
        line.clear();
        item.push_text(&mut line, word);
        line.push_byte(b'\n');
        out.push(writer, line.as_slice())?;
    }
    Ok(())
}

/// Pushes the lines of a list, each built from its end. Takes no memory.
pub(crate) fn push_list_from_end<W: Write, T: ListedFromEnd>(
    out: &mut OutBuffer,
    writer: &mut Sink<W>,
    list: &[u8],
    word: &[u8],
    items: &[T],
) -> Result<(), WriteFault>
    requires list { length list.now ≤ 20 }
    requires word { length word.now ≤ 20 }
    ensures { Pushes (device_of W.contents writer.old) (device_of W.contents writer.new)
        out.old out.new (list_lines list.now (map (T.text word.now) items.now)) result }
{
    let mut head = TextBuffer::new();
    push_head(&mut head, list, items.len() as u64);
    out.push(writer, head.as_slice())?;
    let mut line = TextFromEnd::new();
    for item in items {
        line.clear();
        line.put_byte(b'\n');
        item.put_text(&mut line, word);
        out.push(writer, line.as_slice())?;
    }
    Ok(())
}

/// Writes the line that a list begins with: its word and how many lines follow.
pub(crate) fn push_head(line: &mut TextBuffer, word: &[u8], count: u64)
    requires empty { line.old ≡ [] }
    requires word { length word.now ≤ 20 }
    ensures { line.new ≡ with_line_end (word.now ++ codes " " ++ decimal count) }
{
    line.push(word);
    line.push(b" ");
    line.push_number(count);
    line.push(b"\n");
}
