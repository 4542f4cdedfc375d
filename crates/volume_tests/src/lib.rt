//! Tests of one volume through the public calls of its crates, of what no run of the program shows:
//! a limit of traces, the pieces of a trace under edits, packed records, the places of cells, edits
//! that are prepared and their looks; over small files that are made by hand. What can be asked is
//! tried on the built program. They stand in a crate of their own, since a crate with tests is
//! proved twice.
#![tactic(auto)]

#[cfg(test)]
mod cut_tests;
#[cfg(test)]
mod edit_tests;
#[cfg(test)]
mod files;
#[cfg(test)]
mod heads;
#[cfg(test)]
mod key_tests;
#[cfg(test)]
mod pack_tests;
#[cfg(test)]
mod puts;
#[cfg(test)]
mod record_tests;
#[cfg(test)]
mod view_tests;
#[cfg(test)]
mod views;
#[cfg(test)]
mod volumes;
#[cfg(test)]
mod window_tests;
