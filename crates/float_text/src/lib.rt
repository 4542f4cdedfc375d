//! Float samples as text: the shortest decimal that reads back as the value, and the words of a
//! script that write a value.
#![tactic(auto)]

mod floats;
mod ibm_nearest;
mod large_number;
mod laws;
mod middle;
mod reading;
mod shown;
#[cfg(test)]
mod tests;
mod word;

pub use crate::laws::samples_read_back;
pub use crate::reading::Reading;
pub use crate::shown::text;
pub use crate::word::parse;
