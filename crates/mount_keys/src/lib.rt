//! The calls on the keys of a mount: add one, remove a claim, remove every claim, return a key's status,
//! drop what is cached for speed alone. Each replies as the one-thread mount that the state represents.
#![tactic(auto)]

mod additions;
mod caches;
mod clearings;
mod removals;
mod statuses;

pub use additions::add_key;
pub use caches::drop_caches;
pub use clearings::remove_key_all;
pub use mount_model::{Bytes, KeyId, KeyState, Reply};
pub use mount_state::MountState;
pub use removals::remove_key;
pub use statuses::key_status;
