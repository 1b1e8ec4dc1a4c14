//! A node's key as it is cached.

use fsc_keys::{FileKey, KeyId};

/// A key of a node, and the identifier of the master key that it was derived from.
#[derive(Drop)]
pub struct NodeKey {
    pub id: KeyId,
    pub key: FileKey,
}
