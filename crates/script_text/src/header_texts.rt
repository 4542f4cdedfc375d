// The lines that are printed for the headers of traces.
ghost use Rattle.std.specs.Prelude.{◌≡◌, ◌≤◌, ◌++◌, codes, length};
ghost use Rattle.script_text.specs.HeaderTexts.{found_text, number_text, four_numbers, extremes_text};
ghost use Rattle.line_texts.specs.Lines.{with_blanks};

use crate::list_texts::Listed;
use crate::long_texts::{LongLine, push_between};
use bench_rules::{Extremes, Text};
use device_io::{Sink, WriteFault};
use line_texts::{OutBuffer, TextBuffer, TextFromEnd};
use std::io::Write;

// There may be a line for each trace: they are written with few steps.
impl Listed for (u32, i128) {
    ghost text = { found_text };

    fn push_text(&self, line: &mut TextBuffer, word: &[u8]) {
        line.push(word);
        let mut text = TextFromEnd::new();
        text.put_number(self.1);
        text.put_byte(b' ');
        text.put_number(i128::from(self.0));
        text.put_byte(b' ');
        line.push(text.as_slice());
    }
}

// A name and its number.
impl LongLine for (Text, i128) {
    ghost text = { number_text };

    fn push_line<W: Write>(
        &self,
        out: &mut OutBuffer,
        writer: &mut Sink<W>,
    ) -> Result<(), WriteFault> {
        let mut tail = TextFromEnd::new();
        tail.put_byte(b'\n');
        tail.put_number(self.1);
        tail.put_byte(b' ');
        push_between(
            out,
            writer,
            b"field ",
            self.0.as_str().as_bytes(),
            tail.as_slice(),
        )
    }
}

// A name and the extremes of its numbers.
impl LongLine for (Text, Extremes) {
    ghost text = { extremes_text };

    fn push_line<W: Write>(
        &self,
        out: &mut OutBuffer,
        writer: &mut Sink<W>,
    ) -> Result<(), WriteFault> {
        let mut tail = TextFromEnd::new();
        tail.put_byte(b'\n');
        put_extremes(&mut tail, self.1);
        push_between(
            out,
            writer,
            b"field ",
            self.0.as_str().as_bytes(),
            tail.as_slice(),
        )
    }
}

// Writes a blank and each of the four numbers in front of what is there.
fn put_extremes(text: &mut TextFromEnd, extremes: Extremes)
    requires { length text.old ≤ 20 }
    ensures { text.new ≡ codes " " ++ (with_blanks (four_numbers extremes) ++ text.old) }
{
    text.put_number(extremes.last);
    text.put_byte(b' ');
    text.put_number(extremes.first);
    text.put_byte(b' ');
    text.put_number(extremes.greatest);
    text.put_byte(b' ');
    text.put_number(extremes.least);
    text.put_byte(b' ');
}
