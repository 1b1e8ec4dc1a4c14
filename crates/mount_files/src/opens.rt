//! Opening a node.

ghost use Rattle.std.specs.Prelude.{◌≡◌, ◌+◌, ◌≤◌, true, false, length, is_some, IfOk, OnOk, OnErr};
ghost use Rattle.number_map.specs.Numbered.{get};
ghost use Rattle.mount_model.specs.ClaimHistory.{is_refused};
ghost use Rattle.mount_model.specs.OpenAnswers.{answer_to_open, open_answer};
ghost use Rattle.mount_model.specs.PlainMount.{PlainMount};
ghost use Rattle.mount_model.specs.OpenHandles.{opens_of};
ghost use Rattle.mount_state.specs.AnswerOf.{IsAnswerOrNoMemory};
ghost use Rattle.mount_state.specs.Handles.{is_full};
ghost use Rattle.mount_state.specs.KeyUse.{is_unlocked};
ghost use Rattle.mount_state.specs.PassedEntries.{CachesPassed};
ghost use Rattle.mount_state.specs.SameButCaches.{SameButCaches};
ghost use Rattle.mount_state.specs.Represents.{Represents};
ghost use Rattle.mount_state.specs.CachedKeys.{RepresentsCaches};
ghost use Rattle.mount_files.specs.Opening.{is_link_body, OpensWithNextHandle, OpensOne, SameButOpen};

use crate::holds::{open_own, open_shared};
use crate::need::Need;
use crate::needs::need_of;
use disk_tree::Body;
use mount_model::{Path, Refusal, Reply};
use mount_state::{MountState, walked_node};
use name_crypt::Steps;
use std::alloc::{AllocError, Global};
use std::sync::ledger::Ledger;

/// Opens the directory or file at the end of the path. Returns the number of the caller's new handle: how
/// many the caller opened before. The key of the node, or under flag 8 the mode key of its kind, is cached
/// as long as a handle is open on it.
///
/// Refused as the walk is, then with Inval for a symlink, then with NoKey if the node's key isn't
/// available. Then NoSpace if `MAX_HANDLES` handles are open or the caller opened `MAX_OPENS`. NoMemory
/// replaces an answer that is no refusal. After a refusal all is as before, except which keys of nodes and
/// which names are cached.
pub fn open_node<L: Ledger>(
    alloc: Global,
    state: &mut MountState,
    caller: u32,
    path: &Path,
    steps: &mut Steps<L>,
) -> Reply
    ensures represents { (m : PlainMount) → Represents state.old m
        → IsAnswerOrNoMemory m (answer_to_open m caller path.now) result state.new }
    ensures denied { (m : PlainMount) → Represents state.old m
        → is_refused (answer_to_open m caller path.now).reply ≡ true
        → result ≡ (answer_to_open m caller path.now).reply }
    ensures opened { is_refused result ≡ false → OpensWithNextHandle state.old state.new caller result }
    ensures refused { is_refused result ≡ true → SameButCaches state.old state.new }
    ensures same { SameButOpen state.old state.new }
    ensures ticks { steps.new ≤ steps.old + length path.now }
    ensures brought { CachesPassed state.old state.new path.now }
{
    match walked_node(alloc, state, path, steps) {
        Ok(node) => open_at(alloc, state, caller, node),
        Err(refusal) => Reply::Refused(refusal),
    }
}

// Opens a handle of the caller on the node that a walk reached.
fn open_at(alloc: Global, state: &mut MountState, caller: u32, node: u32) -> Reply
    ensures represents { (m : PlainMount) → Represents state.old m → is_some (get m.nodes node) ≡ true
        → IsAnswerOrNoMemory m (open_answer m caller node) result state.new }
    ensures denied { (m : PlainMount) → Represents state.old m → is_some (get m.nodes node) ≡ true
        → is_refused (open_answer m caller node).reply ≡ true → result ≡ (open_answer m caller node).reply }
    ensures opened { is_refused result ≡ false → OpensWithNextHandle state.old state.new caller result }
    ensures refused { is_refused result ≡ true → SameButCaches state.old state.new }
    ensures same { SameButOpen state.old state.new }
    ensures names { state.new.names ≡ state.old.names }
{
    let Some(stored) = state.disk.node(node) else {
        return Reply::Refused(Refusal::NotFound);
    };
    if is_link(&stored.body) {
        return Reply::Refused(Refusal::Inval);
    }
    if !state.keyed(node) {
        return Reply::Refused(Refusal::NoKey);
    }
    if state.handles.is_full(caller) {
        return Reply::Refused(Refusal::NoSpace);
    }
    match open_keyed(alloc, state, caller, node) {
        Ok(number) => Reply::Opened(number),
        Err(_) => Reply::Refused(Refusal::NoMemory),
    }
}

// Opens a handle of the caller on the node. The node exists, and its key is available.
fn open_keyed(
    alloc: Global,
    state: &mut MountState,
    caller: u32,
    node: u32,
) -> Result<u32, AllocError>
    requires there { is_some (get state.old.disk node) ≡ true }
    requires keyed { is_unlocked state.old.disk state.old.ring.claims state.old.handles.live node ≡ true }
    requires room { is_full state.old.handles caller ≡ false }
    ensures number { IfOk result (λ number. number ≡ opens_of state.old.handles.opened caller) }
    ensures opened { OnOk result (OpensOne state.old state.new caller node) }
    ensures kept { OnErr result (SameButCaches state.old state.new) }
    ensures names { state.new.names ≡ state.old.names }
    ensures caches { (m : PlainMount) → Represents state.old m
        → RepresentsCaches state.new.inodes state.new.modes m }
{
    match need_of(state, node) {
        Need::Own(key) => open_own(alloc, state, caller, node, key),
        Need::Shared { id, kind, key } => open_shared(alloc, state, caller, node, id, kind, key),
    }
}

// Whether the body is a symlink's.
fn is_link(body: &Body) -> bool
    ensures { result ≡ is_link_body body.now }
{
    match body {
        Body::Link(_) => true,
        Body::Dir(_) | Body::File { .. } => false,
    }
}
