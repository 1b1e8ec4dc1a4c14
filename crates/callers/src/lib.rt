//! Callers of the libraries, one of each, as their pages CALLING.md show them.
#![tactic(auto)]

mod asking;
mod copying;
mod dropping;
mod erasing;
mod locking;
mod showing;
mod taking_turns;

pub use asking::ask_new_mount;
pub use copying::copy;
pub use dropping::drop_claim;
pub use erasing::erase;
pub use locking::{Locked, write_and_lock};
pub use showing::visible_name_of;
pub use taking_turns::{ask_twice, new_shared_machine};
