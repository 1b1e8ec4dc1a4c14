//! The tree of a mount's nodes as plain data: its kinds of change, and that each leaves a tree.
#![tactic(auto)]

mod laws;

pub use laws::{changes_keep_seals, changes_keep_trees, stored_entries_agree, texts_resolve};
pub use mount_limits::{MAX_CHILDREN, MAX_NODES};
