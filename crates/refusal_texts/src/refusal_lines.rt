// The lines that are printed for refusals.
ghost use Rattle.std.specs.Prelude.{◌≡◌, ◌≤◌, ◌++◌, length};
ghost use Rattle.refusal_texts.specs.RefusalTexts.{load_fault_text, load_refusal_line, script_refusal_line, line_fault_text, session_fault_text, refusal_text, ask_fault_text, no_trace, no_sample, text_fault_text, map_fault_text, refused_line};
ghost use Rattle.refusal_texts.specs.declared.session_fault.SessionFault.TheVariants.{SaveFailed};

use crate::script_fault::ScriptFault;
use crate::session_fault::SessionFault;
use bench_rules::{AskFault, Refusal};
use field_map::MapFault;
use frame_cut::LoadFault;
use line_texts::TextBuffer;
use script_words::LineFault;
use text_block::TextFault;

/// The line for a refused file.
pub fn load_fault_line(fault: LoadFault) -> TextBuffer
    ensures { result ≡ load_refusal_line fault }
{
    let mut line = TextBuffer::new();
    line.push(b"load refused ");
    push_load_fault(&mut line, fault);
    line.push(b"\n");
    line
}

/// The line for a refused script.
pub fn script_fault_line(fault: ScriptFault) -> TextBuffer
    ensures { result ≡ script_refusal_line fault }
{
    let mut line = TextBuffer::new();
    line.push(b"script refused ");
    line.push(match fault {
        ScriptFault::ReadFailed => b"P01 read failed".as_slice(),
        ScriptFault::TooLarge => b"P02 too large",
        ScriptFault::OutOfMemory => b"P03 out of memory",
    });
    line.push(b"\n");
    line
}

/// The line for a line that is no command.
pub fn line_fault_line(fault: LineFault) -> TextBuffer
    ensures { result ≡ refused_line (line_fault_text fault) }
{
    let mut line = TextBuffer::new();
    line.push(b"refused ");
    line.push(match fault {
        LineFault::Unknown => b"S01 unknown word".as_slice(),
        LineFault::Words => b"S02 words",
        LineFault::Number => b"S03 number",
        LineFault::NotText => b"S04 not text",
        LineFault::TooLarge => b"S05 too large",
        LineFault::OutOfMemory => b"E11 out of memory",
    });
    line.push(b"\n");
    line
}

/// The line for what a session does not do.
pub fn session_fault_line(fault: SessionFault) -> TextBuffer
    ensures { result ≡ refused_line (session_fault_text fault) }
{
    let mut line = TextBuffer::new();
    line.push(b"refused ");
    match fault {
        SessionFault::CutOff => line.push(b"S06 cut off"),
        SessionFault::NoOut => line.push(b"S07 no out"),
        SessionFault::SaveFailed(written) => push_save_failed(&mut line, written),
    }
    line.push(b"\n");
    line
}

// The text of a save that failed when so many bytes were written.
fn push_save_failed(line: &mut TextBuffer, written: u64)
    requires { length line.old ≤ 8 }
    ensures text { line.new ≡ line.old ++ session_fault_text (SaveFailed written) }
    ensures short { length line.new ≤ 127 }
{
    line.push_numbered(b"S08 save failed after ", written);
    line.push(b" bytes");
}

/// The line for a refused edit.
pub fn refusal_line(refusal: Refusal) -> TextBuffer
    ensures { result ≡ refused_line (refusal_text refusal) }
{
    let mut line = TextBuffer::new();
    line.push(b"refused ");
    match refusal {
        Refusal::NoTrace(p, count) => push_no_trace(&mut line, p, count),
        Refusal::NoField => line.push(b"E02 no field"),
        Refusal::NoPlace => line.push(b"E03 no place"),
        Refusal::DoesNotFit => line.push(b"E04 does not fit"),
        Refusal::NoSample(k, number) => push_no_sample(&mut line, k, number),
        Refusal::Frame => line.push(b"E06 frame"),
        Refusal::Text(fault) => push_text_fault(&mut line, fault),
        Refusal::Map(fault) => line.push(map_fault(fault)),
        Refusal::TooLarge => line.push(b"E09 too large"),
        Refusal::TooManyTraces => line.push(b"E10 too many traces"),
        Refusal::OutOfMemory => line.push(b"E11 out of memory"),
        Refusal::NoValues => line.push(b"E12 samples have no value"),
        Refusal::ZeroDivisor(p) => line.push_numbered(b"E13 zero divisor trace ", p),
        Refusal::ReadFailed => line.push(b"E14 read failed"),
        Refusal::FileChanged => line.push(b"E15 file changed"),
    }
    line.push(b"\n");
    line
}

/// The line for a refused query.
pub fn ask_fault_line(fault: AskFault) -> TextBuffer
    ensures { result ≡ refused_line (ask_fault_text fault) }
{
    let mut line = TextBuffer::new();
    line.push(b"refused ");
    match fault {
        AskFault::NoTrace(p, count) => push_no_trace(&mut line, p, count),
        AskFault::NoField => line.push(b"E02 no field"),
        AskFault::NoPlace => line.push(b"E03 no place"),
        AskFault::NoSample(k, number) => push_no_sample(&mut line, k, number),
        AskFault::OutOfMemory => line.push(b"E11 out of memory"),
        AskFault::NoValues => line.push(b"E12 samples have no value"),
        AskFault::ReadFailed => line.push(b"E14 read failed"),
        AskFault::FileChanged => line.push(b"E15 file changed"),
    }
    line.push(b"\n");
    line
}

// Why a text is no line.
fn push_text_fault(line: &mut TextBuffer, fault: TextFault)
    requires { length line.old ≤ 8 }
    ensures text { line.new ≡ line.old ++ text_fault_text fault }
    ensures short { length line.new ≤ 127 }
{
    match fault {
        TextFault::TooLong => line.push(b"E07 T01 too long"),
        TextFault::NoCode(column) => line.push_numbered(b"E07 T02 no code for column ", column),
    }
}

// Why a name is not bound or not unbound.
fn map_fault(fault: MapFault) -> &'static [u8]
    ensures text { result.now ≡ map_fault_text fault }
    ensures short { length result.now ≤ 100 }
{
    match fault {
        MapFault::BadName => b"E08 M01 bad name",
        MapFault::OutsideHeader => b"E08 M02 outside header",
        MapFault::BadKind => b"E08 M03 bad kind",
        MapFault::Full => b"E08 M04 full",
        MapFault::Geometry => b"E08 M05 geometry",
        MapFault::Unknown => b"E08 M06 unknown",
        MapFault::Standard => b"E08 M07 standard",
        MapFault::OutOfMemory => b"E11 out of memory",
    }
}

// No trace p among so many.
fn push_no_trace(line: &mut TextBuffer, p: u32, count: u32)
    requires { length line.old ≤ 8 }
    ensures text { line.new ≡ line.old ++ no_trace p count }
    ensures short { length line.new ≤ 127 }
{
    line.push(b"E01 no trace ");
    line.push_number(p);
    line.push(b" of ");
    line.push_number(count);
}

// No sample k among so many.
fn push_no_sample(line: &mut TextBuffer, k: u32, number: u32)
    requires { length line.old ≤ 8 }
    ensures text { line.new ≡ line.old ++ no_sample k number }
    ensures short { length line.new ≤ 127 }
{
    line.push(b"E05 no sample ");
    line.push_number(k);
    line.push(b" of ");
    line.push_number(number);
}

fn push_load_fault(line: &mut TextBuffer, fault: LoadFault)
    requires { length line.old ≤ 13 }
    ensures text { line.new ≡ line.old ++ load_fault_text fault }
    ensures short { length line.new ≤ 127 }
{
    match fault {
        LoadFault::ReadFailed => line.push(b"L01 read failed"),
        LoadFault::TooLarge => line.push(b"L02 too large"),
        LoadFault::Short(length) => line.push_numbered(b"L03 short ", length),
        LoadFault::PairSwapped => line.push(b"L04 pair swapped"),
        LoadFault::Revision(major, minor) => {
            line.push_numbered(b"L05 revision ", major);
            line.push_numbered(b".", minor);
        }
        LoadFault::FloatFormat(code) => line.push_numbered(b"L06 float format ", code),
        LoadFault::GainFormat => line.push(b"L07 gain format"),
        LoadFault::UnknownFormat(code) => line.push_numbered(b"L08 unknown format ", code),
        LoadFault::TextCount(number) => line.push_numbered(b"L09 text count ", number),
        LoadFault::Extensions(number) => line.push_numbered(b"L10 extensions ", number),
        LoadFault::Trailer(number) => line.push_numbered(b"L11 trailer ", number),
        LoadFault::FirstTrace(place) => line.push_numbered(b"L12 first trace ", place),
        LoadFault::ExtensionCount(trace) => {
            line.push_numbered(b"L13 extension count trace ", trace);
        }
        LoadFault::Truncated(trace) => line.push_numbered(b"L14 truncated trace ", trace),
        LoadFault::TooManyTraces => line.push(b"L15 too many traces"),
        LoadFault::OutOfMemory => line.push(b"L16 out of memory"),
        LoadFault::OtherOrder => line.push(b"L17 other byte order"),
    }
}
