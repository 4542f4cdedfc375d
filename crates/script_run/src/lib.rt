//! A script run over a volume, and a session over one.
//!
//! [`run`] loads a volume, reads a script whole and runs its lines; [`session`] loads a volume and
//! answers the lines of a reader one by one, with an empty line behind each answer, and saves at a
//! line `save`. Both answer by
//! [`RunEnd`], which is the whole report of a run. [`run_on_disk`] and [`session_on_disk`] do the
//! same over a file whose bytes stay on disk, and give the volume back beside the end.
//! [`answer_line`] is one line of a run.
//! [`run_in_place`] and [`run_on_disk_in_place`] repair FILE itself behind the last line, and so
//! does a session whose saves go to [`InPlace`]; those of [`Outside`] go to OUT. They take
//! memory for the volume and for lines, and tell want of it as L16, P03 or E11, only where a growth
//! was refused in that call; to print a reply takes none. Lines count from 1, those that print
//! nothing too; traces count from 1.
#![tactic(auto)]

mod answering;
mod disk_run;
mod held_line;
mod in_place;
mod laws;
mod line_input;
mod line_read;
mod lines_end;
mod next;
mod on_disk;
mod options;
mod read_ahead;
mod repairing;
mod running;
mod saves;
mod saving;
mod script;
mod sections;
mod session_lines;
mod session_repairs;
mod told;
mod whole_run;
mod whole_session;

pub use crate::disk_run::DiskRun;
pub use crate::in_place::{DiskRepairRun, RepairRun, run_in_place, run_on_disk_in_place};
pub use crate::laws::{
    lines_are_edits, lines_from_scratch, out_is_last_save, reloads_as_saved, session_is_run,
};
pub use crate::on_disk::{load_on_disk, run_on_disk, session_on_disk};
pub use crate::options::Options;
pub use crate::running::answer_line;
pub use crate::saves::{Outside, Saves};
pub use crate::session_repairs::InPlace;
pub use crate::told::Told;
pub use crate::whole_run::{refuse_too_large, run, run_loaded};
pub use crate::whole_session::{session, session_loaded};
pub use bench_core::Bench;
pub use script_text::RunEnd;
