//! Cached names, each with the node that it resolves to, so that a look-up encrypts nothing.
#![tactic(auto)]

mod cache;
mod key;
mod laws;
mod limits;

pub use cache::NameCache;
pub use key::NameKey;
pub use laws::a_name_cache_is_what_is_seen_of_it;
pub use limits::{MAX_CACHED_NAME_BYTES, MAX_CACHED_NAMES};
