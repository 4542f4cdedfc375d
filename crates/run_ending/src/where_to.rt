// Where the command line lets a save go.
use crate::device_out::DeviceOut;
use crate::journals::{InRepair, in_repair};
use crate::target::Target;
use command_line::Arguments;
use safe_save::{FileFolder, Original, resolve};
use std::fs;
use std::fs::{File, Metadata};
use std::io::Error;
use std::os::unix::fs::MetadataExt;
use std::rt::Files;

/// Why nothing can be saved to OUT.
#[derive(Debug, Drop)]
pub enum OutRefusal {
    /// It is no place for a file, or one that may not be written.
    NoPlace(Error),
    /// No file can be made in its folder.
    NoFileBeside(Error),
    /// A repair of it was cut off, and its journal is there.
    CutOff,
    /// A repair of it is under way.
    UnderWay,
}

/// Why the words of the command line do not go together: nothing is read then, and nothing written.
pub fn misuse<R: Files>(rt: &R, arguments: &Arguments) -> Option<&'static str> {
    if arguments.recover {
        return misuse_of_recovery(arguments);
    }
    if arguments.look {
        return misuse_of_look(arguments);
    }
    match arguments.script {
        None if !arguments.session => return Some("--script or --session is needed; see --help"),
        Some(_) if arguments.session => return Some("--script and --session exclude each other"),
        _ if arguments.save_at_end && !arguments.session => {
            return Some("--save-at-end is for sessions; a script is saved at its end");
        }
        _ if arguments.save_at_end && arguments.out.is_none() && !arguments.in_place => {
            return Some("--save-at-end needs --out, or --in-place");
        }
        _ => {}
    }
    if arguments.in_place {
        return misuse_in_place(rt, arguments);
    }
    let there = match fs::metadata(rt, arguments.out?) {
        Ok(there) if there.is_file() => there,
        _ => return None,
    };
    misuse_of_file(rt, arguments, &there)
}

// Of a recovery: it loads no file, reads no script, and saves nothing. It tells of no refused line,
// so that `--quiet` may stand beside it.
fn misuse_of_recovery(arguments: &Arguments) -> Option<&'static str> {
    let has_reading = arguments.fixed
        || arguments.samples.is_some()
        || arguments.format.is_some()
        || arguments.texts.is_some()
        || arguments.tail
        || arguments.order.is_some()
        || arguments.opaque
        || arguments.floats;
    let has_ways = arguments.on_disk
        || arguments.max_bytes.is_some()
        || arguments.stop
        || arguments.look;
    let has_work = arguments.script.is_some()
        || arguments.out.is_some()
        || arguments.session
        || arguments.in_place
        || arguments.save_at_end;
    if !(has_reading || has_ways || has_work) {
        None
    } else {
        Some("--recover stands alone: segywb FILE --recover")
    }
}

// Of a look at the head: it reads no script, and saves nothing.
fn misuse_of_look(arguments: &Arguments) -> Option<&'static str> {
    let is_alone = arguments.script.is_none()
        && arguments.out.is_none()
        && arguments.max_bytes.is_none()
        && !(arguments.session || arguments.in_place || arguments.save_at_end)
        && !(arguments.on_disk || arguments.stop || arguments.quiet);
    if is_alone {
        None
    } else {
        Some("--look reads the head alone: segywb FILE --look, with readings as --samples N")
    }
}

// Of a repair of FILE itself.
fn misuse_in_place<R: Files>(rt: &R, arguments: &Arguments) -> Option<&'static str> {
    let there = match fs::metadata(rt, arguments.file) {
        Ok(there) if there.is_file() => there,
        _ => return None,
    };
    if let Some(out) = arguments.out
        && !leads_to(rt, out, &there)
    {
        return Some("--in-place repairs FILE itself, and --out names another file");
    }
    misuse_of_file(rt, arguments, &there)
}

// Of the file that is to be written, which is there: what the script or the answers are is not.
fn misuse_of_file<R: Files>(
    rt: &R,
    arguments: &Arguments,
    there: &Metadata,
) -> Option<&'static str> {
    if let Some(script) = arguments.script
        && leads_to(rt, path_of(script), there)
    {
        return Some(if arguments.in_place {
            "--in-place, and FILE is SCRIPT itself"
        } else {
            "--out names SCRIPT itself"
        });
    }
    if leads_to(rt, "/dev/stdout", there) {
        return Some(if arguments.in_place {
            "--in-place, and the answers go to FILE"
        } else {
            "--out names the file that the answers go to"
        });
    }
    if leads_to(rt, "/dev/stderr", there) {
        return Some(if arguments.in_place {
            "--in-place, and standard error goes to FILE"
        } else {
            "--out names the file that standard error goes to"
        });
    }
    None
}

// The path of a script; `-` is standard input.
fn path_of(script: &str) -> &str {
    if script == "-" { "/dev/stdin" } else { script }
}

// Whether a path leads to this file.
fn leads_to<R: Files>(rt: &R, path: &str, there: &Metadata) -> bool {
    match fs::metadata(rt, path) {
        Ok(other) => (other.dev(), other.ino()) == (there.dev(), there.ino()),
        Err(_) => false,
    }
}

/// The target of the save that the command line asks for. What can be known of it before the run is
/// found out here. Where none is asked for, no file is looked at.
pub fn target_of<'a, R: Files<File = File> + AllocGlobal>(
    rt: &'a R,
    arguments: &Arguments<'a>,
    original: Option<Original<'a>>,
) -> Result<Target<'a, R>, OutRefusal> {
    let Some(out) = arguments.out else {
        return Ok(Target::Device(DeviceOut::new(rt, "", None)));
    };
    let is_device = match fs::metadata(rt, out) {
        Ok(there) => !there.is_file() && !there.is_dir(),
        Err(_) => false,
    };
    if is_device {
        return Ok(Target::Device(DeviceOut::new(rt, out, original)));
    }
    if let Err(error) = resolve(rt, out) {
        return Err(OutRefusal::NoPlace(error));
    }
    match in_repair(rt, out) {
        Ok(None) => {}
        Ok(Some(InRepair::CutOff)) => return Err(OutRefusal::CutOff),
        Ok(Some(InRepair::UnderWay)) => return Err(OutRefusal::UnderWay),
        Err(error) => return Err(OutRefusal::NoPlace(error)),
    }
    match FileFolder::open(rt, out, original) {
        Ok(folder) => Ok(Target::Beside(folder)),
        Err(error) => Err(OutRefusal::NoFileBeside(error)),
    }
}
