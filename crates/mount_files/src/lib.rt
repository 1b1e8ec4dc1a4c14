//! The calls on open files and directories, each answered over a state as the one-thread mount answers it.
#![tactic(auto)]

mod closes;
mod contexts;
mod crossing;
mod files;
mod holds;
mod keys;
mod need;
mod needs;
mod opens;
mod pending;
mod reads;
mod writes;

pub use closes::close;
pub use file_disk::PendingRead;
pub use opens::open_node;
pub use pending::Pending;
pub use reads::{read, read_begin, read_finish};
pub use writes::write;
