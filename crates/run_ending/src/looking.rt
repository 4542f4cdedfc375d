// What the head of FILE says, for `--look`.
use crate::refused::reading_of;
use crate::torn_file::is_read;
use command_line::Arguments;
use frame_cut::{BINARY_HEADER_BYTES, FILE_HEADER_BYTES};
use script_hints::Look;
use std::fs;
use std::fs::{File, OpenFile};
use std::rt::Files;
use text_block::TEXT_BLOCK_BYTES;

/// Prints what the head of FILE says beside what its length says, and gives the exit status: 0, or
/// 3 where FILE cannot be opened or read, is no file on disk, or has no whole file headers, or 4
/// where the answer could not be printed. No trace is read.
pub fn look_at_file<R: Files<File = File> + Print + Eprint>(rt: &R, arguments: &Arguments) -> u8 {
    let name = arguments.file;
    // To open a pipe would wait for a writer.
    let size = match fs::metadata(rt, name) {
        Ok(about) if about.is_file() => about.len(),
        Ok(_) => {
            let _ = eprintln!(rt; "segywb: --look needs a file on disk, and {name} is none");
            return 3;
        }
        Err(_) => {
            let _ = eprintln!(rt; "segywb: cannot open {name}");
            return 3;
        }
    };
    let Ok(file) = fs::open(rt, name) else {
        let _ = eprintln!(rt; "segywb: cannot open {name}");
        return 3;
    };
    let mut bin = [0u8; BINARY_HEADER_BYTES];
    if size < FILE_HEADER_BYTES as u64 || !is_read(&file, TEXT_BLOCK_BYTES as u64, &mut bin) {
        let _ = eprintln!(rt; "segywb: {name}: the two file headers have 3600 bytes");
        return 3;
    }
    let look = Look {
        size,
        bin: &bin,
        reading: reading_of(arguments),
    };
    match print!(rt; "{look}") {
        Ok(()) => 0,
        Err(_) => 4,
    }
}
