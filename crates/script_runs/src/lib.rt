//! Runs a script on one mount, whose callers take turns or run in threads of their own; and what a run on
//! one mount has in common with one on two.
#![tactic(auto)]

mod output;
mod passes;
mod ranged_port;
mod rotation;
mod threads;

pub use output::{PlacedVec, RunOutput, history_of};
pub use passes::{cut, end, max_calls_of_sections};
pub use ranged_port::RangedPort;
pub use rotation::{longest, rotate, run_in_rotation};
pub use threads::run_in_threads;
