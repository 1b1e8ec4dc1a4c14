//! The identifier for which a node counts as a user, before and after its pins change.

ghost use Rattle.std.specs.Prelude.{◌≡◌};
ghost use Rattle.inode_refs.specs.KeyUsers.{user_at, coming, leaving};

use crate::cache::InodeCache;
use crate::node_key::NodeKey;
use fsc_keys::KeyId;

impl InodeCache {
    // The identifier for which the node counts.
    pub(crate) fn user_at(&self, node: u32) -> Option<KeyId>
        ensures { result ≡ user_at self.now node }
    {
        if self.pins(node) == 0 {
            return None;
        }
        self.id_at(node)
    }

    // The identifier for which the node counts from its next pin on, with the key that is cached by that
    // pin.
    pub(crate) fn coming(&self, node: u32, key: &Option<NodeKey>) -> Option<KeyId>
        ensures { result ≡ coming self.now node key.now }
    {
        if self.user_at(node).is_some() {
            return None;
        }
        match (self.id_at(node), key) {
            (Some(id), _) => Some(id),
            (None, Some(key)) => Some(key.id),
            (None, None) => None,
        }
    }

    // The identifier for which the node counts no longer once a pin is removed.
    pub(crate) fn leaving(&self, node: u32) -> Option<KeyId>
        ensures { result ≡ leaving self.now node }
    {
        if self.pins(node) != 1 {
            return None;
        }
        self.id_at(node)
    }
}
