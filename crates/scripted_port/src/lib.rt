//! A port that answers listed replies, and stores the first call after them.
#![tactic(auto)]

mod port;

pub use port::{Further, ScriptedPort};
