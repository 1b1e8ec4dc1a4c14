//! The text of a run: the lines of its log, and the notes of its session commands.
#![tactic(auto)]

mod calls;
mod fields;
mod laws;
mod log;
mod logged;
mod names;
mod notes;
mod outcome;
mod ranges;
mod replies;

pub use laws::{
    beginnings_determine_their_entries, different_replies_have_different_lines,
    lines_determine_their_entries, logs_determine_their_entries, note_lines_determine_their_notes,
};
pub use log::{entry_line, write_log};
pub use logged::{LoggedCall, to_logged};
pub use notes::{Note, note_line, write_notes};
pub use outcome::Outcome;
pub use ranges::{call_in_range, entry_in_range, reply_in_range};
pub use replies::refusal_name;
