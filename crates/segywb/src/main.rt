//! `segywb FILE --script S [--out O] [--in-place] [--on-disk] [--fixed] [--floats]
//! [--opaque-samples] [--order big|little] [--max-bytes N] [--stop] [--quiet]`: runs a script of
//! edits and queries over a SEG-Y file, with one answer for each line on standard output, and saves
//! the edited file to O, which is left as it was where the save fails, or with `--in-place` in FILE
//! itself, of which it writes the changed bytes alone. Standard error is told where each refused
//! line stands, and what may be meant. With `--session` in place of a script the lines come from
//! standard input, each answered before the next is read; a line `save` saves. `segywb FILE
//! --recover` undoes a repair of FILE itself that was cut off.
//!
//! Ends with status 0 where no line was refused, 1 where one was, 2 where the command line is not
//! accepted, 3 where the file cannot be opened or is refused, or a repair of it was cut off, 4
//! where the script cannot be opened or read, answers or the save failed, or FILE was changed by
//! another program before the save.
#![tactic(auto)]

mod program;

use crate::program::status_of;
use std::io;
use std::io::IsTerminal;
use std::process::ExitCode;

fn main(rt: HostRuntime) -> io::Result<ExitCode> {
    let is_typed = rt.stdin().is_terminal();
    Ok(ExitCode::from(status_of(&rt, is_typed)))
}
