//! A log checked as a certificate: whether a text can be the log of a script with a seed, and if not, up to
//! which place.
#![tactic(auto)]

mod check;
mod ending;
mod expected;
mod laws;
mod lines;
mod next_caller;
mod one_thread;
mod read_reply;
mod reading;
mod start;

pub use check::{Verdict, check_log};
pub use expected::{Continuation, expected_after};
pub use laws::{logs_of_runs_are_not_refused, mounts_have_one_reply, next_calls_follow};
pub use one_thread::OneThread;
