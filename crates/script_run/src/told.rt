// Writes the reply to a line.
ghost use Rattle.std.specs.Prelude.{◌≡◌};
ghost use Rattle.edit_overlay.specs.CountedVolume.{RisesAtMost};
ghost use Rattle.edit_overlay.specs.Reads.{Follow, HaveAgreed};
ghost use Rattle.live_volume.specs.Held.{IsReadAs};
ghost use Rattle.line_texts.specs.Devices.{device_of};
ghost use Rattle.script_text.specs.Held.{printed_of};
ghost use Rattle.script_text.specs.Replies.{Printed};
ghost use Rattle.script_run.specs.LineLooks.{held_rows};
ghost use Rattle.script_run.specs.Causes.{read_meanwhile};
ghost use Rattle.script_run.specs.Runs.{HasTraces, Prints};
ghost use Rattle.script_run.specs.Telling.{IsWritten, followed_by};

use crate::sections::write_section;
use bench_core::Bench;
use bench_rules::AskFault;
use device_io::{Sink, WriteFault};
use line_texts::OutBuffer;
use script_text::{Reply, is_refusal, push_reply};
use std::io::Write;

/// What was written for a line.
#[derive(Clone, Copy, Debug, PartialEq, Eq)]
pub struct Told {
    /// How many bytes; at `u64::MAX` it stays.
    pub length: u64,
    /// Whether the line was refused.
    pub is_refusal: bool,
    /// Why a section ends in front of its last row.
    pub(crate) broken_by: Option<AskFault>,
}

/// Writes the whole text of a reply, and this behind it. The traces of a section are looked at, one
/// after another. Takes no memory.
pub(crate) fn write_reply<A: Write>(
    bench: &mut Bench,
    out: &mut OutBuffer,
    answers: &mut Sink<A>,
    reply: &Reply,
    behind: &[u8],
) -> Result<Told, WriteFault>
    ensures written { HaveAgreed bench.new.reads → HasTraces bench.old.state reply.now →
        (printed : Printed)
        × Prints (read_meanwhile bench.old.reads bench.new.reads)
        bench.old.state reply.now printed
        × IsWritten (device_of A.contents answers.old) (device_of A.contents answers.new)
        (followed_by behind.now printed) result }
    ensures state { bench.new.state ≡ bench.old.state }
    ensures reads { Follow bench.old.reads bench.new.reads }
    ensures loaded { bench.new.loaded ≡ bench.old.loaded }
    ensures looks { RisesAtMost bench.old.looks bench.new.looks (held_rows reply.now) }
{
    match reply {
        Reply::Section(section) => write_section(bench, out, answers, section, behind),
        _ => write_text(out, answers, reply, behind),
    }
}

// The same of a reply whose text is made of it alone; of a section that is its first line.
fn write_text<A: Write>(
    out: &mut OutBuffer,
    answers: &mut Sink<A>,
    reply: &Reply,
    behind: &[u8],
) -> Result<Told, WriteFault>
    ensures { IsWritten (device_of A.contents answers.old) (device_of A.contents answers.new)
        (followed_by behind.now (printed_of reply.now)) result }
{
    out.begin();
    push_reply(out, answers, reply)?;
    out.push(answers, behind)?;
    out.flush(answers)?;
    Ok(Told {
        length: out.written(),
        is_refusal: is_refusal(reply),
        broken_by: None,
    })
}
