//! The calls of a script's callers, command after command, and runners, which make a caller's calls on
//! any port.
#![tactic(auto)]

mod laws;
mod runner;
mod session;
mod stack;

use item_list::Items;
pub use laws::{
    answers_determine_the_run, lawful_runs_are_one, log_determines_the_history,
    logs_have_one_meaning, runs_are_next_calls,
};
use reply_text::Note;
pub use runner::{Ran, Runner, note};
pub use session::run_caller;
pub use stack::scrub_stack;

/// The notes of session commands, in order.
pub type NoteList = Items<Note>;
