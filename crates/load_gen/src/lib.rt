//! Generated scripts: a workload of eight callers for each number, always the same.
#![tactic(auto)]

mod callers;
mod laws;
mod numbers;
mod operations;
mod script;
mod words;

pub use laws::generated_scripts_are_spelled;
pub use script::{generate, generate_script};
