//! Parts that several texts have: lines of a size, a rule and terms, lists of numbers, grids, and the end of the input; each
//! written, and read as a part of a longer text.
#![tactic(auto)]

mod lines;
mod parse;
mod read;
mod to_end;

pub use crate::lines::{add_ramp, add_rule, add_size, add_steepness};
pub use crate::read::{
    LONGEST_LINE, expect_end, numbers_after, parsed, read_grid_part, read_known, read_line,
    read_ramp, read_rule, read_size, read_steepness, read_values_part, read_whole_size,
};
pub use crate::to_end::{LinedText, read_to_end};
