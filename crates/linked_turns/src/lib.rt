//! Runs a script on two mounts, one caller's command after another: callers with an even number on mount 0,
//! the others on mount 1, from which they reach protectors on mount 0 through links.
#![tactic(auto)]

mod laws;
mod log;
mod mounts;
mod output;
mod rotation;
mod runners;
mod turn;

pub use laws::linked_logs_have_one_meaning;
pub use log::linked_log;
pub use mounts::Mounts;
pub use output::LinkedOutput;
pub use rotation::run_linked_in_rotation;
