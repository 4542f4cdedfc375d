//! A run and its save as one call: file in, answers out, and what stands under OUT.
//!
//! [`run_to_out`] is `run` and then the end of its save; [`run_on_disk_to_out`] the same over a
//! file that stays on disk. Their contracts hold for every folder that does what `Folder` says;
//! what is known of OUT is known through it.
#![tactic(auto)]

mod to_out;

pub use crate::to_out::{DiskToOut, ToOut, run_on_disk_to_out, run_to_out};
