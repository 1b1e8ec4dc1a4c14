//! Counts under keys, for callers that often ask how many there are of each.
#![tactic(auto)]

mod counts;

pub use counts::{count_of, one_less, one_more};
