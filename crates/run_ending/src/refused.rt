// What standard error says of refused lines and of a refused file.
ghost use Rattle.std.specs.Prelude.{◌≡◌};

use crate::ending::SaveEnd;
use crate::finishing::is_heard;
use crate::fitting::fits;
use crate::torn_file::torn_file;
use command_line::Arguments;
use frame_cut::{Limits, LoadFault, Reading};
use script_hints::{Fit, LoadNote, NoteLine, Notes, TornFile};
use script_text::RunEnd;
use std::fs::File;
use std::rt::Files;

// A note has no more bytes beside the path of the script, and there are at most so many lines.
const NOTE_ROOM: u64 = 400;

const LINES: u64 = 24;

// The most bytes that any file may have.
const GREATEST: u64 = 1099511627776;

/// Tells of the refused lines of a script, or of the refused file, and that the file was saved
/// without the refused lines.
pub(crate) fn tell_refused<R: Files<File = File> + AllocGlobal + Eprint>(
    rt: &R,
    arguments: &Arguments,
    end: RunEnd,
    save: SaveEnd,
    notes: &Notes,
) {
    if !is_heard(rt, notes_room(arguments)) {
        return;
    }
    if let RunEnd::Load(fault) = end {
        let line = LoadNote {
            file: arguments.file,
            fault,
            on_disk: arguments.on_disk,
            reading: reading_of(arguments),
            torn: torn(rt, arguments, fault),
            fits: fits_of(rt, arguments, fault),
        };
        let _ = eprintln!(rt; "{line}");
    }
    let script = arguments.script.unwrap_or("");
    for note in notes.as_slice() {
        let line = NoteLine { script, note };
        let _ = eprintln!(rt; "{line}");
    }
    let more = notes.left_out();
    if more > 0 {
        let lines = lines_of(more);
        let _ = eprintln!(rt; "segywb: .. and {more} more refused {lines}");
    }
    let refused = notes.refused();
    if refused > 0 && (save == SaveEnd::Saved || save == SaveEnd::Unsettled) {
        let lines = lines_of(refused);
        let _ = eprintln!(rt;
            "segywb: saved without {refused} refused {lines}; with --stop nothing is saved then"
        );
    }
}

// How many bytes the notes of a refused file and of 20 refused lines may have together.
fn notes_room(arguments: &Arguments) -> u64 {
    let script = arguments.script.unwrap_or("").len() as u64;
    let line = script.saturating_add(NOTE_ROOM);
    // The path stands in each of the lines of a refused file, of which there are at most seven.
    line.saturating_mul(LINES)
        .saturating_add((arguments.file.len() as u64).saturating_mul(7))
}

// Readings that would cut the refused file evenly.
fn fits_of<R: Files<File = File> + AllocGlobal>(
    rt: &R,
    arguments: &Arguments,
    fault: LoadFault,
) -> [Option<Fit>; 5] {
    match Limits::new(GREATEST, u32::MAX) {
        Some(limits) => fits(rt, arguments.file, reading_of(arguments), limits, fault),
        None => [None, None, None, None, None],
    }
}

// What is seen of a file that ends inside a trace.
fn torn<R: Files<File = File> + AllocGlobal>(
    rt: &R,
    arguments: &Arguments,
    fault: LoadFault,
) -> Option<TornFile> {
    match fault {
        LoadFault::Truncated(trace) => {
            let limits = Limits::new(GREATEST, u32::MAX)?;
            torn_file(rt, arguments.file, reading_of(arguments), limits, trace)
        }
        _ => None,
    }
}

/// How the command line asks for the file to be read.
pub fn reading_of(arguments: &Arguments) -> Reading
    ensures { result ≡ record {
      fixed = arguments.now.fixed;
      opaque = arguments.now.opaque;
      floats = arguments.now.floats;
      order = arguments.now.order;
      samples = arguments.now.samples;
      format = arguments.now.format;
      texts = arguments.now.texts;
      tail = arguments.now.tail;
    } }
{
    Reading {
        fixed: arguments.fixed,
        opaque: arguments.opaque,
        floats: arguments.floats,
        order: arguments.order,
        samples: arguments.samples,
        format: arguments.format,
        texts: arguments.texts,
        tail: arguments.tail,
    }
}

fn lines_of(count: u64) -> &'static str {
    if count == 1 { "line" } else { "lines" }
}

/// Tells at a terminal how to begin, where neither a script nor a session was asked for.
pub fn tell_how_to_begin<R: Eprint>(rt: &R, file: &str) {
    let _ = eprintln!(rt;
        "segywb: --script or --session is needed: printf 'info\\nget 1 inline\\n' | segywb {file} \
         --script -"
    );
    let _ = eprintln!(rt; "segywb: to ask and edit line by line: segywb {file} --session");
    let _ = eprintln!(rt;
        "segywb: the commands: man 5 segywb-script, or docs/MANUAL.md; the options: segywb --help"
    );
}
