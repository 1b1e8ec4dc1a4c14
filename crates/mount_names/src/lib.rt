//! The calls on the tree, each answered over a state as the one-thread mount answers it.
#![tactic(auto)]

mod ciphers;
mod contexts;
mod entries;
mod links;
mod listings;
mod lookups;
mod makes;
mod metadata;
mod moves;
mod packed_names;
mod pages;
mod places;
mod policies;
mod reading;
mod removals;
mod stored_names;
mod symlinks;
mod targets;

pub use links::read_link;
pub use listings::list;
pub use lookups::lookup;
pub use makes::{create, mkdir};
pub use metadata::{get_policy, stat};
pub use moves::rename;
pub use policies::set_policy;
pub use removals::{rmdir, unlink};
pub use symlinks::symlink;
