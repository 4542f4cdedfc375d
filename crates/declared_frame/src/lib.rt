//! The reading under which a file was cut, written into its binary header (bytes 3201 to 3600), so
//! that the file says by itself what was asked for: the number of samples, the code of the sample
//! format, the fixed length flag, the number of extended textual headers. `declared` is that
//! header; `fields_hold`, `needs_lengths` and `has_samples` tell whether a load without the reading
//! then cuts the file into the same parts. The calls that are named for a law do nothing: their
//! contract is the law. No call takes memory.
#![tactic(auto)]

mod declaring;
mod laws;

pub use crate::declaring::{declared, fields_hold, has_samples, needs_lengths};
pub use crate::laws::{declared_is_read, declared_stays_cut, undeclared_is_other};
