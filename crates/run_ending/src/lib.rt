//! The end of a run for whoever called the program: where the save goes, how it ends, the exit
//! status, and what standard error says.
//!
//! [`misuse`] and [`target_of`] judge, before anything is read, where the command line lets a save
//! go; [`end_out`] ends the save, and [`finish`] tells what there is to tell, and gives the exit
//! status, which is a function of how the run and the save ended. [`OutPlace`] takes the saves of a
//! session, and [`finish_told`] ends one. A save goes to a new file beside OUT, or to OUT itself
//! where that is a pipe or a device.
//!
//! A repair of FILE itself begins with [`journal_refusal`] and [`disk_of`], which locks it, and
//! ends with [`finish_in_place`]; those of a session are told of by [`RepairTeller`].
//! [`recover_file`] undoes one that was cut off. [`look_at_file`] tells what the head of FILE says,
//! beside what its length says.
#![tactic(auto)]

mod device_out;
mod ending;
mod finishing;
mod fitting;
mod journals;
mod looking;
mod out_end;
mod out_place;
mod refused;
mod repairing;
mod target;
mod torn_file;
mod where_to;

pub use crate::device_out::DeviceOut;
pub use crate::ending::{
    Message, RecoveryEnd, SaveEnd, exit_status, recovery_status, told, told_of_change,
};
pub use crate::finishing::{finish, finish_told, refused_out};
pub use crate::journals::{journal_refusal, recover_file};
pub use crate::looking::look_at_file;
pub use crate::out_end::{OutEnd, end_out};
pub use crate::out_place::OutPlace;
pub use crate::refused::{reading_of, tell_how_to_begin};
pub use crate::repairing::{RepairTeller, disk_of, finish_in_place};
pub use crate::target::Target;
pub use crate::where_to::{OutRefusal, misuse, target_of};
