//! The cache of nodes: file keys, and how often each node is pinned by an open handle.
#![tactic(auto)]

mod cache;
mod cached_key;
mod kept;
mod laws;
mod node_key;
mod user_ids;
mod users;

pub use aes_core::Aes256;
pub use cache::InodeCache;
pub use fsc_keys::{FileKey, KeyId};
pub use laws::{a_cache_is_what_is_seen_of_it, a_cached_key_is_the_key_that_is_seen};
pub use node_key::NodeKey;
