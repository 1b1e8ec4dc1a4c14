//! The content of the mount's disk: nodes by number, their entries under stored names, and their blocks.
#![tactic(auto)]

mod blocks;
mod changes;
mod edits;
mod entries;
mod fault;
mod held_index;
mod laws;
mod name_index;
mod named;
mod node;
mod tree;

pub use blocks::{Block, BlockList};
pub use entries::DirEntries;
pub use fault::DiskFault;
pub use item_list::Bytes;
pub use laws::block_total_is_the_sum_over_nodes;
pub use mount_limits::{BLOCK_SIZE, MAX_BLOCKS, MAX_CHILDREN, MAX_NODES};
pub use node::{Body, StoredNode};
pub use tree::DiskTree;
