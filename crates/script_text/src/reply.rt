// What is printed for a line of a script.
ghost use Rattle.std.specs.Prelude.{◌≡◌};
ghost use Rattle.line_texts.specs.Devices.{device_of};
ghost use Rattle.line_texts.specs.Printing.{Pushes, nothing_out};
ghost use Rattle.script_text.specs.Held.{printed_of};
ghost use Rattle.script_text.specs.Replies.{saved_line as line_of_save};

use crate::answer_texts::{numbered_line, push_answer};
use crate::float_texts::push_floats;
use crate::section_texts::push_section_head;
use bench_rules::{Answer, AskFault, Refusal, Section};
use device_io::{Sink, WriteFault};
use line_texts::{OutBuffer, TextBuffer};
use refusal_texts::{
    SessionFault, ask_fault_line, line_fault_line, refusal_line, session_fault_line,
};
use script_words::LineFault;
use shown_floats::FloatAnswer;
use std::io::Write;

/// What a line gives, of which its text is made.
#[derive(Drop)]
pub enum Reply {
    /// A note or a blank line.
    Silent,
    /// The line is no command.
    Fault(LineFault),
    /// The line is for the session itself, which saved so many bytes, or why it did not; or the
    /// session does not run it.
    Session(Result<u64, SessionFault>),
    /// The line is an edit; of chosen traces, how many they were.
    Edited(Result<Option<u32>, Refusal>),
    /// The line is a query.
    Asked(Result<Answer, AskFault>),
    /// The line is a query that tells of samples that are floats.
    Floats(FloatAnswer),
    /// The line is a query for samples of many traces, and has this section for its answer: who has
    /// the traces prints it, line by line ([`crate::push_section_row`]).
    Section(Section),
}

/// Whether a reply is a refusal.
pub fn is_refusal(reply: &Reply) -> bool
    ensures { result ≡ (printed_of reply.now).is_refusal }
{
    match reply {
        Reply::Silent
        | Reply::Session(Ok(_))
        | Reply::Edited(Ok(_))
        | Reply::Asked(Ok(_))
        | Reply::Floats(_)
        | Reply::Section(_) => false,
        Reply::Fault(_) | Reply::Session(Err(_)) | Reply::Edited(Err(_)) | Reply::Asked(Err(_)) =>
            true,
    }
}

/// Pushes the text of a reply, the first one since the buffer began: of a section its first line
/// alone. Takes no memory.
pub fn push_reply<W: Write>(
    out: &mut OutBuffer,
    writer: &mut Sink<W>,
    reply: &Reply,
) -> Result<(), WriteFault>
    requires { out.old ≡ nothing_out }
    ensures { Pushes (device_of W.contents writer.old) (device_of W.contents writer.new)
        out.old out.new (printed_of reply.now).text result }
{
    match reply {
        Reply::Silent => Ok(()),
        Reply::Fault(fault) => out.push(writer, line_fault_line(*fault).as_slice()),
        Reply::Session(Ok(bytes)) => out.push(writer, saved_line(*bytes).as_slice()),
        Reply::Session(Err(fault)) => out.push(writer, session_fault_line(*fault).as_slice()),
        Reply::Edited(Ok(None)) => out.push(writer, b"ok\n"),
        Reply::Edited(Ok(Some(count))) => {
            out.push(writer, numbered_line(b"ok ", *count).as_slice())
        }
        Reply::Edited(Err(refusal)) => out.push(writer, refusal_line(*refusal).as_slice()),
        Reply::Asked(Ok(answer)) => push_answer(out, writer, answer),
        Reply::Floats(answer) => push_floats(out, writer, answer),
        Reply::Section(section) => {
            push_section_head(out, writer, section.traces.as_slice().len() as u64)
        }
        Reply::Asked(Err(fault)) => out.push(writer, ask_fault_line(*fault).as_slice()),
    }
}

// The line for a save of so many bytes.
fn saved_line(bytes: u64) -> TextBuffer
    ensures { result ≡ line_of_save bytes }
{
    let mut line = TextBuffer::new();
    line.push_numbered(b"saved ", bytes);
    line.push(b"\n");
    line
}
