// Writes samples of many traces, each trace while it is looked at.
ghost use Rattle.std.specs.Prelude.{◌≡◌, ◌<◌, ◌^◌, length};
ghost use Rattle.edit_overlay.specs.CountedVolume.{RisesAtMost};
ghost use Rattle.edit_overlay.specs.Reads.{Follow, HaveAgreed};
ghost use Rattle.line_texts.specs.Devices.{device_of};
ghost use Rattle.script_text.specs.Replies.{Printed};
ghost use Rattle.bench_rules.specs.Conditions.{AreRising};
ghost use Rattle.frame_cut.specs.Traces.{count_of};
ghost use Rattle.script_run.specs.Causes.{read_meanwhile};
ghost use Rattle.script_run.specs.Sections.{AreRowsOut, IsRowOut, IsSectionPrinted};
ghost use Rattle.script_run.specs.Telling.{IsWritten, followed_by};

use crate::told::Told;
use bench_core::Bench;
use bench_rules::{AskFault, SampleRange, Section};
use device_io::{Sink, WriteFault};
use float_codes::FloatFormat;
use line_texts::OutBuffer;
use sample_answers::AskedSamples;
use script_text::{push_section_head, push_section_row, section_end};
use std::io::Write;

/// Writes the line that a section begins with, a line for each of its traces, and this behind them.
/// Looks at each trace once. On disk the refusal of a trace that could not be read (E14, E15)
/// stands in the place of its line, and the lines end there. Takes no memory.
pub(crate) fn write_section<A: Write>(
    bench: &mut Bench,
    out: &mut OutBuffer,
    answers: &mut Sink<A>,
    section: &Section,
    behind: &[u8],
) -> Result<Told, WriteFault>
    ensures written { HaveAgreed bench.new.reads →
        AreRising 1 (count_of bench.old.state.volume) section.now.traces → (printed : Printed)
        × IsSectionPrinted (read_meanwhile bench.old.reads bench.new.reads)
        bench.old.state section.now printed
        × IsWritten (device_of A.contents answers.old) (device_of A.contents answers.new)
        (followed_by behind.now printed) result }
    ensures state { bench.new.state ≡ bench.old.state }
    ensures reads { Follow bench.old.reads bench.new.reads }
    ensures loaded { bench.new.loaded ≡ bench.old.loaded }
    ensures looks { RisesAtMost bench.old.looks bench.new.looks (length section.now.traces) }
{
    out.begin();
    push_section_head(out, answers, section.traces.as_slice().len() as u64)?;
    let broken_by = push_rows(bench, out, answers, section)?;
    let end = section_end(broken_by);
    out.push(answers, end.as_slice())?;
    out.push(answers, behind)?;
    out.flush(answers)?;
    Ok(Told {
        length: out.written(),
        is_refusal: broken_by.is_some(),
        broken_by,
    })
}

// Pushes a line for each of the traces, up to one that is refused, and tells why it is.
fn push_rows<A: Write>(
    bench: &mut Bench,
    out: &mut OutBuffer,
    answers: &mut Sink<A>,
    section: &Section,
) -> Result<Option<AskFault>, WriteFault>
    requires { out.old.written < 2 ^ 64 }
    ensures rows { HaveAgreed bench.new.reads →
        AreRowsOut (read_meanwhile bench.old.reads bench.new.reads)
        bench.old.state section.now
        (device_of A.contents answers.old) (device_of A.contents answers.new)
        out.old out.new result }
    ensures state { bench.new.state ≡ bench.old.state }
    ensures reads { Follow bench.old.reads bench.new.reads }
    ensures loaded { bench.new.loaded ≡ bench.old.loaded }
    ensures looks { RisesAtMost bench.old.looks bench.new.looks (length section.now.traces) }
{
    let floats = bench.float_format();
    for p in section.traces.as_slice() {
        let refused = push_row(bench, out, answers, floats, *p, section.samples)?;
        if refused.is_some() {
            return Ok(refused);
        }
    }
    Ok(None)
}

// Pushes the line of trace p, or tells why it is refused: E01, or on disk E14 or E15.
fn push_row<A: Write>(
    bench: &mut Bench,
    out: &mut OutBuffer,
    answers: &mut Sink<A>,
    floats: Option<FloatFormat>,
    p: u32,
    range: SampleRange,
) -> Result<Option<AskFault>, WriteFault>
    ensures row { HaveAgreed bench.new.reads →
        IsRowOut (read_meanwhile bench.old.reads bench.new.reads)
        bench.old.state floats range p
        (device_of A.contents answers.old) (device_of A.contents answers.new)
        out.old out.new result }
    ensures state { bench.new.state ≡ bench.old.state }
    ensures reads { Follow bench.old.reads bench.new.reads }
    ensures loaded { bench.new.loaded ≡ bench.old.loaded }
    ensures looks { RisesAtMost bench.old.looks bench.new.looks 1 }
{
    let count = bench.volume().count();
    match bench.look(p) {
        Ok(Some(trace)) => {
            let samples = AskedSamples::new(&trace, range);
            push_section_row(out, answers, floats, p, samples)?;
            Ok(None)
        }
        Ok(None) => Ok(Some(AskFault::NoTrace(p, count))),
        Err(fault) => Ok(Some(AskFault::from(fault))),
    }
}
