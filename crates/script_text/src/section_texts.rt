// The lines that are printed for samples of many traces, each while its trace is looked at.
ghost use Rattle.std.specs.Prelude.{◌≡◌, ◌++◌, ℕ, List, codes};
ghost use Rattle.line_texts.specs.Devices.{device_of};
ghost use Rattle.line_texts.specs.Printing.{Pushes};
ghost use Rattle.script_text.specs.SectionTexts.{section_end as section_end_of, section_head, IsRowText, IsWord};

use crate::answer_texts::numbered_line;
use bench_rules::AskFault;
use device_io::{Sink, WriteFault};
use float_codes::FloatFormat;
use line_texts::{OutBuffer, TextBuffer, TextFromEnd};
use refusal_texts::ask_fault_line;
use sample_answers::AskedSamples;
use shown_floats::FloatWord;
use std::io::Write;

/// Pushes the line that a section of so many traces begins with. Takes no memory.
pub fn push_section_head<W: Write>(
    out: &mut OutBuffer,
    writer: &mut Sink<W>,
    count: u64,
) -> Result<(), WriteFault>
    ensures { Pushes (device_of W.contents writer.old) (device_of W.contents writer.new)
        out.old out.new (section_head count) result }
{
    out.push(writer, numbered_line(b"samples ", count).as_slice())
}

/// What stands behind the rows of a section: the line of the refusal of the trace whose row is
/// lacking, and nothing where none is. Takes no memory.
pub fn section_end(refused: Option<AskFault>) -> TextBuffer
    ensures { result ≡ section_end_of refused }
{
    match refused {
        Some(fault) => ask_fault_line(fault),
        None => TextBuffer::new(),
    }
}

/// Pushes the line of a trace: its position and its samples, which are floats where a format is
/// given. It may have any number of them: each is pushed by itself. Takes no memory.
pub fn push_section_row<W: Write>(
    out: &mut OutBuffer,
    writer: &mut Sink<W>,
    floats: Option<FloatFormat>,
    position: u32,
    mut samples: AskedSamples<'_>,
) -> Result<(), WriteFault>
    ensures { (text : List ℕ) × IsRowText floats (position, samples.entry) text
        × Pushes (device_of W.contents writer.old) (device_of W.contents writer.new)
        out.old out.new text result }
{
    let mut piece = TextFromEnd::new();
    piece.put_number(i128::from(position));
    out.push(writer, piece.as_slice())?;
    'samples: while let Some(sample) = samples.next() {
        push_sample(out, writer, &mut piece, floats, sample)?;
    }
    out.push(writer, b"\n")
}

// Pushes a blank and the word of a sample behind it.
#[inline]
fn push_sample<W: Write>(
    out: &mut OutBuffer,
    writer: &mut Sink<W>,
    piece: &mut TextFromEnd,
    floats: Option<FloatFormat>,
    sample: i128,
) -> Result<(), WriteFault>
    ensures { (word : List ℕ) × IsWord floats sample word
        × Pushes (device_of W.contents writer.old) (device_of W.contents writer.new)
        out.old out.new (codes " " ++ word) result }
{
    match floats {
        None => {
            piece.clear();
            piece.put_number(sample);
            piece.put_byte(b' ');
            out.push(writer, piece.as_slice())
        }
        Some(format) => {
            let word = FloatWord::of(format, sample);
            out.push(writer, b" ")?;
            out.push(writer, word.as_slice())
        }
    }
}
