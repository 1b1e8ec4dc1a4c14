//! The state of a mount, and the invariants of its type.

ghost use Rattle.mount_state.specs.CachedNames.{NamesForget};
ghost use Rattle.mount_state.specs.Discipline.{Forgets};
ghost use Rattle.mount_state.specs.Safe.{IsSafe};

use super::HandleTable;
use dentry_cache::NameCache;
use disk_tree::DiskTree;
use inode_refs::InodeCache;
use key_ring::{KeyRing, ModeKeys};
use meta_files::MetaFiles;

/// All that a mount holds: what is on the disk, claims with their secrets, records, cached keys with pins,
/// open handles, mode keys, and cached names. No value of it exists that holds more of a master key, or
/// more plain names under it, than it may.
pub struct MountState {
    /// The stored nodes.
    pub disk: DiskTree,
    /// The number that the next node gets.
    pub next_node: u32,
    /// The claims and the secrets.
    pub ring: KeyRing,
    /// The records.
    pub meta: MetaFiles,
    /// The cached file keys, and the pins of each node.
    pub inodes: InodeCache,
    /// The open handles.
    pub handles: HandleTable,
    /// The mode keys.
    pub modes: ModeKeys,
    /// The cached names, each with the node that it resolves to.
    pub names: NameCache,
    pub ghost forgets: { Forgets disk ring.claims inodes modes handles.live },
    pub ghost remembers: { NamesForget disk ring.claims names handles.live },
    pub ghost safe: { IsSafe disk next_node handles.live },
}

// Written, and not derived, so that a crate that lets one go needn't prove how that is done.
impl Drop for MountState {
    fn drop(self) {
        let MountState {
            disk: _,
            next_node: _,
            ring: _,
            meta: _,
            inodes: _,
            handles: _,
            modes: _,
            names: _,
        } = self;
    }
}
