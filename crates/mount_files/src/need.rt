//! What a handle on a node needs of a master key.

use fsc_keys::{FileKey, KeyId, KeyKind};
use inode_refs::NodeKey;

/// What a handle on a node needs.
#[derive(Drop)]
pub(crate) enum Need {
    /// The node's own file key, which is to be cached. `None` if it is cached, or the node has none.
    Own(Option<NodeKey>),
    /// The mode key of this identifier and kind.
    Shared {
        id: KeyId,
        kind: KeyKind,
        key: FileKey,
    },
}
