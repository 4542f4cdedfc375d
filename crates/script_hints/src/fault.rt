// Why a line is refused.
ghost use Rattle.std.specs.Prelude.{◌≡◌, is_some};
ghost use Rattle.script_text.specs.Held.{printed_of};

use bench_rules::{AskFault, Refusal};
use field_map::MapFault;
use refusal_texts::SessionFault;
use script_text::Reply;
use script_words::LineFault;
use std::fmt;
use text_block::TextFault;

/// Why a line is refused. Its text is that of the line's answer, behind `refused`.
#[derive(Clone, Copy, Debug, PartialEq, Eq)]
pub enum Fault {
    /// The line is no command.
    Line(LineFault),
    /// A session does not run the line, or did not save at it.
    Session(SessionFault),
    /// The line is an edit.
    Edit(Refusal),
    /// The line is a query.
    Query(AskFault),
}

/// Why the line of this reply is refused; `None` where it is not, and of samples of many traces,
/// of which a trace that cannot be read is found while they are printed. Takes no memory.
pub fn fault_of(reply: &Reply) -> Option<Fault>
    ensures { is_some result ≡ (printed_of reply.now).is_refusal }
{
    match reply {
        Reply::Silent
        | Reply::Session(Ok(_))
        | Reply::Edited(Ok(_))
        | Reply::Asked(Ok(_))
        | Reply::Floats(_)
        | Reply::Section(_) => None,
        Reply::Fault(fault) => Some(Fault::Line(*fault)),
        Reply::Session(Err(fault)) => Some(Fault::Session(*fault)),
        Reply::Edited(Err(refusal)) => Some(Fault::Edit(*refusal)),
        Reply::Asked(Err(fault)) => Some(Fault::Query(*fault)),
    }
}

impl fmt::Display for Fault {
    fn fmt<W: fmt::Write>(&self, f: &mut fmt::Formatter<W>) -> fmt::Result {
        match self {
            Fault::Line(fault) => write!(f, "{fault}"),
            Fault::Session(fault) => write!(f, "{fault}"),
            Fault::Edit(Refusal::Text(TextFault::TooLong)) => f.write_str("E07 T01 too long"),
            Fault::Edit(Refusal::Text(fault)) => write!(f, "E07 T02 {fault}"),
            Fault::Edit(Refusal::Map(fault)) => {
                let code = map_code(*fault);
                write!(f, "{code} {fault}")
            }
            Fault::Edit(refusal) => write!(f, "{refusal}"),
            Fault::Query(fault) => write!(f, "{fault}"),
        }
    }
}

// The codes of a name that is not bound or not unbound.
fn map_code(fault: MapFault) -> &'static str {
    match fault {
        MapFault::BadName => "E08 M01",
        MapFault::OutsideHeader => "E08 M02",
        MapFault::BadKind => "E08 M03",
        MapFault::Full => "E08 M04",
        MapFault::Geometry => "E08 M05",
        MapFault::Unknown => "E08 M06",
        MapFault::Standard => "E08 M07",
        MapFault::OutOfMemory => "E11",
    }
}
