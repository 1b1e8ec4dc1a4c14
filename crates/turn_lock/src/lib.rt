//! One machine shared by threads, which take turns on it. Each call has a place in one history, on which
//! all threads agree: what a caller has seen is a beginning of it, and its own entries are in it in order.
//! Proved over any `Machine`, from the machine's laws alone.
#![tactic(auto)]

mod crossing;
mod held;
mod laws;
mod machine;
mod pass;
mod plays;
mod recorder;
mod shared;
mod steps;
mod view;

pub use laws::free_value_stands_after_its_history;
pub use machine::{At, Machine, PassExhausted};
pub use pass::Pass;
pub use shared::Shared;
