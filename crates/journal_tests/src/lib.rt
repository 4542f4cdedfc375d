//! Tests of a save in place and of its recovery: the bytes of a journal against those that another
//! program makes, each call of a disk in memory failing in turn, and files of the system. They
//! stand in a crate of their own, since a crate with tests is proved twice.
#![tactic(auto)]

#[cfg(test)]
mod file_tests;
#[cfg(test)]
mod memory_tests;
