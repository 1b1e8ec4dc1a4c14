//! The mount as a machine that answers calls one after another, the one that the program shares, and the
//! callers' ways to it.
#![tactic(auto)]

mod answers;
mod crossing;
mod file_answers;
mod key_answers;
mod laws;
mod machine;
mod mount;
mod name_answers;
mod record_answers;
mod serial;
mod shared_port;

pub use laws::{a_mount_is_its_state, removals_report_remaining_claims};
pub use machine::MountMachine;
pub use mount::Mount;
pub use serial::{SerialMount, SerialPort};
pub use shared_port::SharedPort;
