//! Lines of a log, read back: which caller asked a mount for what, and the reply.
#![tactic(auto)]

mod calls;
mod fields;
mod names;
mod reader;
mod replies;
mod types;

pub use reader::{LogEntry, read_entry};
