//! The entries of a history of calls, and the words in which contracts speak of such histories:
//! places, the entries of one caller, entries put in order of place, and beginnings.
#![tactic(auto)]

mod entry;
mod laws;
mod order;

pub use entry::Entry;
pub use laws::callers_determine_history;
pub use order::sort_by_place;

/// The maximal number of places of a history, 2^40.
pub const MAX_PLACES: u64 = 1_099_511_627_776;
