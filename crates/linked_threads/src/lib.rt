//! Runs a script on two mounts, each caller in its own thread: even callers on mount 0, odd ones on mount
//! 1, with links to protectors on mount 0.
#![tactic(auto)]

mod cut;
mod mounts;
mod one;
mod output;
mod threads;

pub use threads::run_linked_in_threads;
