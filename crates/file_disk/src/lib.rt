//! What a file on the disk holds: a piece is written into its stored blocks, and a part of them is read in
//! two halves.
#![tactic(auto)]

mod cipher_space;
mod key;
mod laws;
mod pending;
mod read;
mod write;

pub use disk_tree::{DiskFault, DiskTree};
pub use key::ContentsKey;
pub use laws::writes_give_the_contents;
pub use mount_limits::{MAX_FILE_BYTES, MAX_READ_BYTES};
pub use pending::PendingRead;
pub use policy_ctx::Unit;
pub use read::{begin_read, finish_read};
pub use write::write_file;
