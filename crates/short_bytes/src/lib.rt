//! Bytes of bounded number, stored in the value itself, and the labels that are made of them.
#![tactic(auto)]

mod filled;
mod label;

pub use filled::Filled;
pub use label::{Label, MAX_LABEL_BYTES};
