//! Text in lines: written through a buffer into a sink, by a writer that keeps its fault, and read from a feed line by
//! line.
#![tactic(auto)]

mod expect;
mod fault;
mod fields;
mod lines;
mod numbers;
mod parse;
mod rules;
mod waiting;
mod writer;

pub use crate::expect::{expect_line, expect_text};
pub use crate::fault::LineFault;
pub use crate::fields::{
    add_field, add_long_field, add_numbers, add_rect, add_row, add_signed_field, add_wide_field,
    add_wide_signed_field, see_longs,
};
pub use crate::lines::{LineEnd, Lines};
pub use crate::numbers::{count_of, labelled_count, number_of, push_numbers, push_row};
pub use crate::parse::{
    last_field, last_wide, pair_behind, pair_of, rect_behind, rect_of, split_field, take_field,
    take_wide, wide_of,
};
pub use crate::rules::{rule_name, rule_of};
pub use crate::writer::TextWriter;
