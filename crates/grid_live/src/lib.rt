//! The grid of a survey: which cells have traces and how many, by cell, inline and crossline, and
//! how often each fold occurs. `Grid` counts traces that come and go, and is seen as their tally.
//! The calls that are named for a law do nothing: their contract is the law.
//!
//! `Grid::add` and `add_beside` take memory for a cell, inline or crossline that had no trace and
//! lies outside those of the load, `from_records` for all that it counts, and each call that
//! answers a list takes memory for it. Where a growth is refused they answer want of memory, and
//! the grid is as it was; each gives up only where a growth was refused in that call. No other call
//! takes memory.
#![tactic(auto)]

mod cell;
mod fold_count;
mod grid;
mod key_lists;
mod keys;
mod laws;
mod line;
mod lists;

pub use crate::cell::Cell;
pub use crate::fold_count::FoldCount;
pub use crate::grid::Grid;
pub use crate::laws::{
    at_most_one_histogram, at_most_one_list_of_cells, at_most_one_list_of_crosslines,
    at_most_one_list_of_inlines, cells_are_shown, crosslines_are_shown, fold_of_tally,
    histogram_is_shown, inlines_are_shown,
};
pub use crate::line::Line;
pub use room::OutOfMemory;
