//! The state of an empty mount, and what a state answers of keys.

ghost use Rattle.std.specs.Prelude.{◌≡◌, ◌↔◌, false, None, Some, IfOk, is_some};
ghost use Rattle.number_map.specs.Numbered as map;
ghost use Rattle.user_claims.specs.ClaimCounts.{is_present};
ghost use Rattle.key_ring.specs.Holding.{secret_of};
ghost use Rattle.key_ring.specs.Modes.{mode_at};
ghost use Rattle.fsc_keys.specs.declared.file_keys.KeyKind.{KeyKind};
ghost use Rattle.mount_model.specs.PlainMount.{PlainMount, empty_mount};
ghost use Rattle.mount_model.specs.States as plain;
ghost use Rattle.mount_state.specs.KeyUse.{HoldsNothing, is_in_use, key_state, is_unlocked, is_unlocked_under};
ghost use Rattle.mount_state.specs.Represents.{Represents};

use super::{HandleTable, KeyId, KeyState, MountState};
use dentry_cache::NameCache;
use disk_tree::{DiskTree, StoredNode};
use inode_refs::InodeCache;
use key_ring::{KeyRing, ModeKeys};
use meta_files::MetaFiles;
use policy_ctx::{CONTEXT_LEN, id_in};
use std::alloc::{AllocError, Global};

/// The number of the first node that is made after the root.
const FIRST_NODE: u32 = 1;

impl MountState {
    /// The state of the empty mount: the root alone, no key, no record, nothing open. It takes memory for the
    /// root and for the cache of names; the one error is that there is none.
    pub fn new(alloc: Global) -> Result<MountState, AllocError>
        ensures { IfOk result (λ state. Represents state empty_mount) }
    {
        let disk = DiskTree::new(alloc)?;
        Ok(MountState {
            disk,
            next_node: FIRST_NODE,
            ring: KeyRing::new(alloc),
            meta: MetaFiles::new(alloc),
            inodes: InodeCache::new(alloc),
            handles: HandleTable::new(alloc),
            modes: ModeKeys::new(alloc),
            names: NameCache::new(alloc)?,
        })
    }

    /// Returns whether the mount holds the key: Present if some user has a claim on it, otherwise
    /// Incomplete if something open needs it, otherwise Absent. It is Absent exactly when nothing of the
    /// key is held: no secret, no file key, no mode key, and no plain name of a directory under it.
    pub fn status(&self, id: &KeyId) -> KeyState
        ensures value { result ≡ key_state self.now.disk self.now.ring.claims self.now.handles.live id.now }
        ensures absent { result ≡ KeyState.Absent ↔ HoldsNothing self.now.disk self.now.ring self.now.inodes
            self.now.modes self.now.names id.now }
        ensures represents { (m : PlainMount) → Represents self.now m → result ≡ plain.key_state_of m id.now }
    {
        if self.is_present(id) {
            return KeyState::Present;
        }
        if self.is_busy(id) {
            return KeyState::Incomplete;
        }
        KeyState::Absent
    }

    /// Whether some handle is on a node whose context names the key. If none is, no mode key of it is held.
    /// Takes two look-ups: such a node has the key cached, or uses a mode key.
    pub fn is_busy(&self, id: &KeyId) -> bool
        ensures value { result ≡ is_in_use self.now.disk self.now.handles.live id.now }
        ensures modes { result ≡ false → (kind : KeyKind) → mode_at self.now.modes id.now kind ≡ None }
        ensures represents { (m : PlainMount) → Represents self.now m → result ≡ plain.is_busy m id.now }
    {
        self.inodes.users_of(id) > 0 || self.modes.users_of(id) > 0
    }

    /// Whether the node's key is available: it has no context, or the key that this names is present, or a
    /// handle is open on this very node. True too if there is no such node.
    pub fn keyed(&self, node: u32) -> bool
        ensures value { result ≡ is_unlocked self.now.disk self.now.ring.claims self.now.handles.live node }
        ensures represents { (m : PlainMount) → Represents self.now m → result ≡ plain.is_keyed m node }
    {
        match self.disk.node(node) {
            Some(stored) => self.keyed_as(node, stored),
            None => true,
        }
    }

    /// The same, if the node was looked up.
    pub fn keyed_as(&self, node: u32, stored: &StoredNode) -> bool
        requires { map.get self.now.disk node ≡ Some stored.now }
        ensures value { result ≡ is_unlocked self.now.disk self.now.ring.claims self.now.handles.live node }
        ensures represents { (m : PlainMount) → Represents self.now m → result ≡ plain.is_keyed m node }
    {
        match &stored.context {
            Some(context) => self.keyed_under(node, context),
            None => true,
        }
    }

    // The same of a node that has this context.
    pub(crate) fn keyed_under(&self, node: u32, context: &[u8; CONTEXT_LEN]) -> bool
        ensures { result ≡ is_unlocked_under self.now.ring.claims self.now.handles.live node
            (Some context.now) }
    {
        self.is_present(&id_in(context)) || self.inodes.pins(node) > 0
    }

    // Whether some user has a claim on the key: exactly when its secret is held.
    fn is_present(&self, id: &KeyId) -> bool
        ensures claimed { result ≡ is_present self.now.ring.claims id.now }
        ensures secret { result ≡ is_some (secret_of self.now.ring id.now) }
    {
        self.ring.claims().count_of_id(id) > 0
    }
}
