//! The next call of a caller of a script, after the replies so far: each command is run on a port that
//! answers exactly with those.
#![tactic(auto)]

mod back;
mod caller;
mod listing;
mod next;
mod remembering;

pub use caller::Caller;
pub use next::{Next, next_call};
pub use remembering::Remembering;
