//! Tests of the lowest crates through their public calls, of what no run of the program shows:
//! ranks of floats, the order of traces, readers and writers that count their failures, a save that
//! fails at each call, the limit on the size of files, the times of a file; with values from
//! outside or worked by hand. Numbers, codes of samples, texts and names are tried on the built
//! program. They stand in a crate of their own, since a crate with tests is proved twice.
#![tactic(auto)]

#[cfg(test)]
mod code_tests;
#[cfg(test)]
mod limit_tests;
#[cfg(test)]
mod order_tests;
#[cfg(test)]
mod save_tests;
#[cfg(test)]
mod sink_tests;
#[cfg(test)]
mod source_tests;
