//! The answers about samples that are floats, with the words that are printed for them: each a
//! decimal that reads back as the value (`float_text`), or `nan`, `inf` or `-inf`.
//!
//! [`shown`] makes them of an answer of a volume, whose floats are ranks (`float_codes`), and takes
//! memory for the items of a list alone; it gives up only where a growth was refused in that call.
#![tactic(auto)]

mod float_answer;
mod float_word;
mod laws;
mod problems;
mod showing;
mod wording;

pub use crate::float_answer::{
    FloatAnswer, FloatRow, ShownEnds, ShownProblem, ShownStatistics, ShownTotals, ShownTrace,
};
pub use crate::float_word::FloatWord;
pub use crate::laws::each_rank_is_shown;
pub use crate::showing::shown;
