//! Tests of the bench through its public calls: edits, queries and saves over small files that are
//! made by hand. They stand in a crate of their own, since a crate with tests is proved twice.
#![tactic(auto)]

#[cfg(test)]
mod chosen_tests;
#[cfg(test)]
mod compute_tests;
#[cfg(test)]
mod header_tests;
#[cfg(test)]
mod number_tests;
#[cfg(test)]
mod report_tests;
#[cfg(test)]
mod slice_tests;
#[cfg(test)]
mod sort_tests;
#[cfg(test)]
mod tests;
#[cfg(test)]
mod trace_tests;
