//! A handle is opened with all that it needs, or nothing is changed.

ghost use Rattle.std.specs.Prelude.{◌≡◌, ◌+◌, ◌-◌, ◌<◌, ◌^◌, true, false, is_some, IfOk, OnOk, OnErr, if◌then◌else◌};
ghost use Rattle.number_map.specs.Numbered.{get, remove};
ghost use Rattle.inode_refs.specs.CacheMaps.{pins_of, with_pins, with_pinned_key};
ghost use Rattle.mount_model.specs.PlainMount.{PlainMount};
ghost use Rattle.mount_model.specs.OpenHandles.{opens_of};
ghost use Rattle.mount_state.specs.Handles.{is_full, with_handle};
ghost use Rattle.mount_state.specs.SameButCaches.{SameButCaches};
ghost use Rattle.mount_state.specs.Represents.{Represents};
ghost use Rattle.mount_state.specs.CachedKeys.{RepresentsCaches};
ghost use Rattle.mount_files.specs.Needs.{IsOwnNeed, IsSharedNeed, IsNeedIn};
ghost use Rattle.mount_files.specs.Opening.{OpensOne};
ghost use Rattle.mount_files.specs.declared.need.Need.TheVariants.{Own, Shared};

use fsc_keys::{FileKey, KeyId, KeyKind};
use inode_refs::{InodeCache, NodeKey};
use mount_state::{HandleTable, MountState};
use std::alloc::{AllocError, Global};

// Opens a handle on a node that uses no mode key, and caches the node's own key if it is passed.
pub(crate) fn open_own(
    alloc: Global,
    state: &mut MountState,
    caller: u32,
    node: u32,
    key: Option<NodeKey>,
) -> Result<u32, AllocError>
    requires there { is_some (get state.old.disk node) ≡ true }
    requires room { is_full state.old.handles caller ≡ false }
    requires need { IsOwnNeed state.old.disk state.old.inodes node key }
    ensures number { IfOk result (λ number. number ≡ opens_of state.old.handles.opened caller) }
    ensures opened { OnOk result (OpensOne state.old state.new caller node) }
    ensures kept { OnErr result (SameButCaches state.old state.new) }
    ensures names { state.new.names ≡ state.old.names }
    ensures caches { (m : PlainMount) → Represents state.old m → IsNeedIn m node (Own key)
        → RepresentsCaches state.new.inodes state.new.modes m }
{
    open_pinned(
        alloc,
        &mut state.inodes,
        &mut state.handles,
        caller,
        node,
        key,
    )
}

// Opens a handle on a node that uses this mode key.
pub(crate) fn open_shared(
    alloc: Global,
    state: &mut MountState,
    caller: u32,
    node: u32,
    id: KeyId,
    kind: KeyKind,
    key: FileKey,
) -> Result<u32, AllocError>
    requires there { is_some (get state.old.disk node) ≡ true }
    requires room { is_full state.old.handles caller ≡ false }
    requires need { IsSharedNeed state.old.disk node id kind key }
    ensures number { IfOk result (λ number. number ≡ opens_of state.old.handles.opened caller) }
    ensures opened { OnOk result (OpensOne state.old state.new caller node) }
    ensures kept { OnErr result (SameButCaches state.old state.new) }
    ensures names { state.new.names ≡ state.old.names }
    ensures caches { (m : PlainMount) → Represents state.old m → IsNeedIn m node (Shared id kind key)
        → RepresentsCaches state.new.inodes state.new.modes m }
{
    // Each mode key has users, so one user that is added and removed again leaves all as before.
    let _used = state.modes.users_of(&id);
    if state.modes.hold(alloc, &id, kind, key, 1).is_err() {
        return Err(AllocError);
    }
    match open_pinned(
        alloc,
        &mut state.inodes,
        &mut state.handles,
        caller,
        node,
        None,
    ) {
        Ok(number) => Ok(number),
        Err(error) => {
            state.modes.release(&id, kind);
            Err(error)
        }
    }
}

// Pins the node, with its key if one is passed, and opens a handle on it.
fn open_pinned(
    alloc: Global,
    inodes: &mut InodeCache,
    handles: &mut HandleTable,
    caller: u32,
    node: u32,
    key: Option<NodeKey>,
) -> Result<u32, AllocError>
    requires fit { pins_of inodes.old node + 1 < 2 ^ 32 }
    ensures number { IfOk result (λ number. number ≡ opens_of handles.old.opened caller) }
    ensures opened { OnOk result (handles.new ≡ with_handle handles.old caller node) }
    ensures pinned { OnOk result (inodes.new ≡ record {
      keys = with_pinned_key inodes.old.keys node key;
      pins = with_pins inodes.old.pins node (pins_of inodes.old node + 1);
    }) }
    ensures handles { OnErr result (handles.new ≡ handles.old) }
    ensures inodes { OnErr result (inodes.new ≡ inodes.old) }
{
    let cached = inodes.key_of(node).is_some();
    if inodes.pin(alloc, node, key).is_err() {
        return Err(AllocError);
    }
    match handles.open(caller, node) {
        Ok(number) => Ok(number),
        Err(_) => {
            unpin(inodes, node, cached);
            Err(AllocError)
        }
    }
}

// Removes a pin of the node, and its key if the key isn't to stay.
fn unpin(inodes: &mut InodeCache, node: u32, stays: bool)
    requires { 0 < pins_of inodes.old node }
    ensures { inodes.new ≡ record {
      keys = if stays then inodes.old.keys else remove inodes.old.keys node;
      pins = with_pins inodes.old.pins node (pins_of inodes.old node - 1);
    } }
{
    inodes.unpin(node);
    if !stays {
        inodes.drop_key(node);
    }
}
