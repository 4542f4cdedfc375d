//! Tests of scripts through the public calls, of what no run of the program shows: readers, writers
//! and places that fail at a later call, how many traces one line looks at, and the tables that
//! hints are taken from. What is read of a line, and what is printed and saved, is tried on the
//! built program. They stand in a crate of their own, since a crate with tests is proved twice.
#![tactic(auto)]

#[cfg(test)]
mod hint_tests;
#[cfg(test)]
mod line_tests;
#[cfg(test)]
mod reply_tests;
#[cfg(test)]
mod run_tests;
#[cfg(test)]
mod session_tests;
#[cfg(test)]
mod tests;
