//! The calls on the records of a mount: load one, store one. Each answers as the one-thread mount that the
//! state represents.
#![tactic(auto)]

mod loads;
mod stores;

pub use loads::meta_load;
pub use mount_model::{Bytes, Reply};
pub use mount_state::MountState;
pub use stores::meta_store;
