//! What paths resolve to, in the stored tree.

ghost use Rattle.std.specs.Prelude.{◌≡◌, ◌+◌, ◌-◌, ◌≤◌, false, None, Ok, Err, take, length};
ghost use Rattle.std.specs.Prelude.{IfErr, IfOk, IsSome, OnOk};
ghost use Rattle.std.specs.Result.{result_ok};
ghost use Rattle.number_map.specs.Numbered as map;
ghost use Rattle.dentry_cache.specs.Names.{cached_node};
ghost use Rattle.disk_tree.specs.DiskTree.{IsDirAt};
ghost use Rattle.mount_model.specs.PlainMount.{PlainMount};
ghost use Rattle.mount_model.specs.Walk.{looked_in, walk_step, walk_path};
ghost use Rattle.mount_model.specs.EntryPaths.{parent, parent_parts, last_part, is_at_or_above};
ghost use Rattle.mount_state.specs.CachedNames.{FillsNames};
ghost use Rattle.mount_state.specs.Contexts.{context_on_disk};
ghost use Rattle.mount_state.specs.KeyUse.{is_unlocked};
ghost use Rattle.mount_state.specs.PassedEntries.{CachesOnly, CachesPassed, found_entry};
ghost use Rattle.mount_state.specs.PassedNodes.{passes, with_past};
ghost use Rattle.mount_state.specs.SameButCaches.{SameButCaches, StaysFor};
ghost use Rattle.mount_state.specs.Represents.{Represents};

use crate::caching::cache_key;
use crate::names::{number_of, resolved_number};
use crate::state::MountState;
use mount_model::limits::MAX_NAME_BYTES;
use mount_model::{Path, Refusal};
use name_crypt::Steps;
use std::alloc::Global;
use std::sync::ledger::Ledger;

/// Returns the node of the directory's entry whose visible name is the part: its name if the directory is
/// keyed, otherwise its no-key text.
///
/// NotDir if the number is no directory's, then NameTooLong for a part of more than `MAX_NAME_BYTES`
/// bytes, then NotFound. At most one name is encrypted, and none if the name is cached or the key is
/// absent. Nothing is decrypted. A name that resolves to a node in a keyed directory with a policy is
/// cached from then on. If there is no memory for that, the failure is counted. No other name is cached
/// that was not.
pub fn entry_of<L: Ledger>(
    alloc: Global,
    state: &mut MountState,
    dir: u32,
    part: &[u8],
    steps: &mut Steps<L>,
) -> Result<u32, Refusal>
    ensures value { (m : PlainMount) → Represents state.old m → result ≡ walk_step m dir part.now }
    ensures represents { StaysFor state.old state.new }
    ensures same { SameButCaches state.old state.new }
    ensures ticks { steps.new ≤ steps.old + 1 }
    ensures hit { IsSome (cached_node state.old.names dir part.now) → steps.new ≡ steps.old }
    ensures locked { is_unlocked state.old.disk state.old.ring.claims state.old.handles.live dir ≡ false
        → steps.new ≡ steps.old }
    ensures filled { IfOk result (FillsNames state.old.disk state.old.ring.claims state.old.handles.live
        state.old.names state.new.names dir part.now) }
    ensures brought { CachesOnly state.old.names state.new.names (found_entry dir part.now (result_ok result)) }
{
    match directory_for(state, dir, part) {
        Ok(true) => resolved_number(alloc, state, dir, part, steps).ok_or(Refusal::NotFound),
        Ok(false) => number_of(state, dir, part, steps)
            .0
            .ok_or(Refusal::NotFound),
        Err(refusal) => Err(refusal),
    }
}

/// Returns the node that the path resolves to from the root. Refused as its first refused part is. At most
/// one name is encrypted for each part. Only entries that the walk passes may be cached and were not.
pub fn walked_node<L: Ledger>(
    alloc: Global,
    state: &mut MountState,
    path: &Path,
    steps: &mut Steps<L>,
) -> Result<u32, Refusal>
    ensures value { (m : PlainMount) → Represents state.old m → result ≡ walk_path m path.now }
    ensures represents { StaysFor state.old state.new }
    ensures same { SameButCaches state.old state.new }
    ensures ticks { steps.new ≤ steps.old + length path.now }
    ensures brought { CachesPassed state.old state.new path.now }
{
    walked_parts(alloc, state, path, path.len(), steps)
}

/// The directory in which the path's last part is to be looked up. Refused as the parts before it are,
/// then NotDir, then NameTooLong for the last one. A path with no part is taken for one with an empty
/// part. At most one name is encrypted for each part but the last. Only entries that the walk to the
/// directory passes may be cached and were not.
pub fn walked_parent<L: Ledger>(
    alloc: Global,
    state: &mut MountState,
    path: &Path,
    steps: &mut Steps<L>,
) -> Result<u32, Refusal>
    ensures value { (m : PlainMount) → Represents state.old m → result ≡ parent m path.now }
    ensures short { OnOk result (length (last_part path.now) ≤ MAX_NAME_BYTES) }
    ensures represents { StaysFor state.old state.new }
    ensures same { SameButCaches state.old state.new }
    ensures ticks { steps.new ≤ steps.old + (length path.now - 1) }
    ensures brought { CachesPassed state.old state.new (parent_parts path.now) }
{
    let before = path.len().saturating_sub(1);
    match walked_parts(alloc, state, path, before, steps) {
        Ok(dir) => directory_kept(alloc, state, dir, last_bytes(path)),
        Err(refusal) => Err(refusal),
    }
}

/// Returns the directory of the path's last part, refused as `walked_parent` is. Also returns whether this
/// node is that directory or above it: whether the walk to it passes the node.
pub fn walk_parent_past<L: Ledger>(
    alloc: Global,
    state: &mut MountState,
    path: &Path,
    node: u32,
    steps: &mut Steps<L>,
) -> Result<(u32, bool), Refusal>
    ensures value { (m : PlainMount) → Represents state.old m
        → result ≡ with_past (is_at_or_above m node path.now) (parent m path.now) }
    ensures represents { StaysFor state.old state.new }
    ensures same { SameButCaches state.old state.new }
    ensures ticks { steps.new ≤ steps.old + (length path.now - 1) }
    ensures brought { CachesPassed state.old state.new (parent_parts path.now) }
{
    let before = path.len().saturating_sub(1);
    match walked_past(alloc, state, path, before, node, steps) {
        Ok((dir, past)) => match directory_kept(alloc, state, dir, last_bytes(path)) {
            Ok(dir) => Ok((dir, past)),
            Err(refusal) => Err(refusal),
        },
        Err(refusal) => Err(refusal),
    }
}

/// Returns the path's last part, or no bytes if it has none.
pub fn last_bytes(path: &Path) -> &[u8]
    ensures { result.now ≡ last_part path.now }
{
    match path.part(path.len().saturating_sub(1)) {
        Some(part) => part.bytes(),
        None => b"",
    }
}

// Returns the node that the first `count` parts of the path resolve to, and whether it or one before it is
// this node.
fn walked_past<L: Ledger>(
    alloc: Global,
    state: &mut MountState,
    path: &Path,
    count: usize,
    node: u32,
    steps: &mut Steps<L>,
) -> Result<(u32, bool), Refusal>
    requires { count ≤ length path.now }
    ensures value { (m : PlainMount) → Represents state.old m
        → result ≡ with_past (passes m 0 (take count path.now) node) (walk_path m (take count path.now)) }
    ensures represents { StaysFor state.old state.new }
    ensures same { SameButCaches state.old state.new }
    ensures ticks { steps.new ≤ steps.old + count }
    ensures brought { CachesPassed state.old state.new (take count path.now) }
{
    let mut at = 0;
    let mut past = false;
    for i in 0..count {
        let Some(part) = path.part(i) else {
            unreachable!()
        };
        match entry_of(alloc, state, at, part.bytes(), steps) {
            Ok(next) => {
                past = past | (at == node);
                at = next;
            }
            Err(refusal) => return Err(refusal),
        }
    }
    Ok((at, past | (at == node)))
}

// Returns the node that the first `count` parts of the path resolve to.
fn walked_parts<L: Ledger>(
    alloc: Global,
    state: &mut MountState,
    path: &Path,
    count: usize,
    steps: &mut Steps<L>,
) -> Result<u32, Refusal>
    requires { count ≤ length path.now }
    ensures value { (m : PlainMount) → Represents state.old m → result ≡ walk_path m (take count path.now) }
    ensures represents { StaysFor state.old state.new }
    ensures same { SameButCaches state.old state.new }
    ensures ticks { steps.new ≤ steps.old + count }
    ensures brought { CachesPassed state.old state.new (take count path.now) }
{
    let mut node = 0;
    for i in 0..count {
        let Some(part) = path.part(i) else {
            unreachable!()
        };
        match entry_of(alloc, state, node, part.bytes(), steps) {
            Ok(next) => node = next,
            Err(refusal) => return Err(refusal),
        }
    }
    Ok(node)
}

// Returns the directory, if the part may be looked up in it. Caches the key of its names as `cache_key`
// does.
fn directory_kept(
    alloc: Global,
    state: &mut MountState,
    dir: u32,
    part: &[u8],
) -> Result<u32, Refusal>
    ensures value { (m : PlainMount) → Represents state.old m → result ≡ looked_in m dir part.now }
    ensures dir { OnOk result (IsDirAt state.old.disk dir) }
    ensures short { OnOk result (length part.now ≤ MAX_NAME_BYTES) }
    ensures represents { StaysFor state.old state.new }
    ensures same { SameButCaches state.old state.new }
    ensures names { state.new.names ≡ state.old.names }
{
    match directory_for(state, dir, part) {
        Ok(true) => {
            cache_key(alloc, state, dir);
            Ok(dir)
        }
        Ok(false) => Ok(dir),
        Err(refusal) => Err(refusal),
    }
}

// Returns whether the directory has a policy, if the part may be looked up in it.
fn directory_for(state: &MountState, dir: u32, part: &[u8]) -> Result<bool, Refusal>
    ensures found { IfOk result (λ _.
        (m : PlainMount) → Represents state.now m → looked_in m dir part.now ≡ Ok dir) }
    ensures refused { IfErr result (λ refusal. (m : PlainMount) → Represents state.now m
        → looked_in m dir part.now ≡ Err refusal) }
    ensures dir { OnOk result (IsDirAt state.now.disk dir) }
    ensures short { OnOk result (length part.now ≤ MAX_NAME_BYTES) }
    ensures plain { result ≡ Ok false → context_on_disk (map.get state.now.disk dir) ≡ None }
{
    let Some(node) = state.disk.node(dir) else {
        return Err(Refusal::NotDir);
    };
    if !node.body.is_dir() {
        return Err(Refusal::NotDir);
    }
    if part.len() > MAX_NAME_BYTES {
        return Err(Refusal::NameTooLong);
    }
    Ok(node.context.is_some())
}
