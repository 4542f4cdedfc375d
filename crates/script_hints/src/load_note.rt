// What is told of a file that is refused.
use crate::fit::Fit;
use crate::torn_file::TornFile;
use frame_cut::{LoadFault, Reading};
use std::fmt;

/// `segywb: FILE: REFUSAL (HINT)`, one line without its line feed: why the file is refused, and
/// what to do. Where an option reads the file all the same, a further line names it.
#[derive(Drop)]
pub struct LoadNote<'a> {
    /// The path of the file.
    pub file: &'a str,
    /// Why it is refused.
    pub fault: LoadFault,
    /// Whether its bytes were to stay on disk.
    pub on_disk: bool,
    /// How the file was asked to be read.
    pub reading: Reading,
    /// What is seen of a file that ends inside a trace.
    pub torn: Option<TornFile>,
    /// Readings that would cut it.
    pub fits: [Option<Fit>; 5],
}

impl fmt::Display for LoadNote<'_> {
    fn fmt<W: fmt::Write>(&self, f: &mut fmt::Formatter<W>) -> fmt::Result {
        let file = self.file;
        let fault = self.fault;
        write!(f, "segywb: {file}: {fault} (")?;
        let text = match asked(fault, self.reading) {
            Some(text) => Some(text),
            None => hint(fault, self.on_disk),
        };
        match (text, fault, &self.torn) {
            (Some(text), _, _) => f.write_str(text)?,
            (None, LoadFault::UnknownFormat(code), _) => unknown_format(f, code)?,
            (None, LoadFault::Truncated(trace), Some(torn)) => torn.write(f, trace)?,
            (None, _, _) => frame_hint(f, fault)?,
        }
        f.write_str(")")?;
        match fault {
            LoadFault::FloatFormat(_) => f.write_str(
                "\nsegywb: with --floats the file is read, its samples with their values; \
                 with --opaque-samples as bytes without a value",
            )?,
            LoadFault::GainFormat => f.write_str(
                "\nsegywb: with --opaque-samples the file is read all the same, \
                 its samples as bytes without a value",
            )?,
            _ => {}
        }
        for fit in &self.fits {
            if let Some(fit) = fit {
                f.write_str("\nsegywb: ")?;
                fit.write(f, file)?;
            }
        }
        Ok(())
    }
}

// What is refused is what the command line asks for, and not what the file says.
fn asked(fault: LoadFault, reading: Reading) -> Option<&'static str> {
    match fault {
        LoadFault::FloatFormat(_) if reading.format.is_some() => {
            Some("as --format says; formats 1, 5 and 6 are floats")
        }
        LoadFault::GainFormat if reading.format.is_some() => {
            Some("as --format says; format 4 is fixed point with gain")
        }
        LoadFault::UnknownFormat(_) if reading.format.is_some() => {
            Some("as --format says; the standard has formats 1 to 12, 15 and 16")
        }
        LoadFault::TextCount(_) if reading.texts.is_some() => {
            Some("as --texts says; the file has fewer bytes")
        }
        _ => None,
    }
}

// What to do about a file that is read in no way here.
fn hint(fault: LoadFault, on_disk: bool) -> Option<&'static str> {
    match fault {
        LoadFault::ReadFailed => Some("it is a folder, or its disk fails"),
        LoadFault::TooLarge => Some(
            "--max-bytes N raises the limit; with --on-disk FILE need not fit in memory",
        ),
        LoadFault::Short(_) => Some("the two file headers have 3600 bytes"),
        LoadFault::PairSwapped => Some(
            "bytes 3297-3300 are 02 01 04 03: the two bytes of each pair are swapped; \
             swap them back, as by dd conv=swab",
        ),
        LoadFault::Revision(..) => Some("bytes 3501-3502; revisions 0, 1 and 2.0 are read"),
        LoadFault::FloatFormat(_) => Some(
            "bytes 3225-3226; formats 1, 5 and 6 are floats, which have values where --floats asks \
             for them",
        ),
        LoadFault::GainFormat => Some(
            "bytes 3225-3226; format 4 is fixed point with gain: \
             samples with a value are whole numbers, in formats 2, 3, 7 to 12, 15 and 16, or \
             floats, in 1, 5 and 6",
        ),
        LoadFault::TooManyTraces => Some("a file has at most 4294967295 traces"),
        LoadFault::OutOfMemory if on_disk => Some(
            "the records of all traces and the longest trace must fit in memory",
        ),
        LoadFault::OutOfMemory => Some("without --on-disk the file must fit in memory"),
        LoadFault::OtherOrder => {
            Some("bytes 3297-3300 tell the order of bytes, which stands: leave out --order")
        }
        _ => None,
    }
}

// The format's code in the other byte order, where that is one of the standard's.
fn unknown_format<W: fmt::Write>(f: &mut fmt::Formatter<W>, code: u16) -> fmt::Result {
    let other = code.swap_bytes();
    if 1 <= other && other <= 16 {
        write!(
            f,
            "bytes 3225-3226; in the other byte order it is {other}: --order big or --order little \
             says the order of a file whose bytes 3297-3300 do not tell it"
        )
    } else {
        f.write_str(
            "bytes 3225-3226; formats 2, 3, 7 to 12, 15 and 16 are read, and 1, 5 and 6 with \
             --floats",
        )
    }
}

// Which bytes say how the file is cut.
fn frame_hint<W: fmt::Write>(f: &mut fmt::Formatter<W>, fault: LoadFault) -> fmt::Result {
    f.write_str(match fault {
        LoadFault::TextCount(_) => "bytes 3505-3506: extended textual headers",
        LoadFault::Extensions(_) => "bytes 3507-3510: header extensions of a trace, at most 255",
        LoadFault::Trailer(_) => "bytes 3529-3532: data trailer records",
        LoadFault::FirstTrace(_) => "bytes 3521-3528: where the first trace begins",
        LoadFault::ExtensionCount(_) => {
            "bytes 157-158 of its first header extension: more than bytes 3507-3510 of the file say"
        }
        _ => "the file ends inside that trace",
    })
}
