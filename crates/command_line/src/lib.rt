//! The command line of segywb, read by clap: what its words say, or clap's text where they are not
//! accepted. It stands by itself since clap's own definitions make each check slow.
#![tactic(auto)]

mod parsing;

pub use crate::parsing::{Arguments, arguments};
