//! Closing a handle.

ghost use Rattle.std.specs.Prelude.{◌≡◌, ◌≤◌, ◌==◌, ◌&&◌, ◌||◌, true, not, Some, IfSome, None};
ghost use Rattle.number_map.specs.Numbered.{get};
ghost use Rattle.policy_ctx.specs.Context.{id_in};
ghost use Rattle.policy_ctx.specs.declared.policy.KeyId.{KeyId};
ghost use Rattle.user_claims.specs.ClaimCounts.{is_present};
ghost use Rattle.fsc_keys.specs.declared.file_keys.KeyKind.{KeyKind};
ghost use Rattle.key_ring.specs.Modes.{of_kind};
ghost use Rattle.key_ring.specs.ModeUsers.{users_in};
ghost use Rattle.inode_refs.specs.Evictions.{is_unpinned};
ghost use Rattle.mount_model.specs.declared.reply.KeyState.TheVariants.{Absent};
ghost use Rattle.mount_model.specs.ClaimHistory.{is_refused};
ghost use Rattle.mount_model.specs.CloseAnswers.{answer_to_close, with_closed};
ghost use Rattle.mount_model.specs.PlainMount.{PlainMount};
ghost use Rattle.mount_model.specs.OpenHandles.{node_of};
ghost use Rattle.mount_state.specs.CachedNames.{is_dir_on_disk};
ghost use Rattle.mount_state.specs.Contexts.{context_on_disk, uses_mode};
ghost use Rattle.mount_state.specs.AnswerOf.{IsAnswerOf};
ghost use Rattle.mount_state.specs.KeyUse.{HoldsNothing, key_state};
ghost use Rattle.mount_state.specs.SameButCaches.{SameButCaches};
ghost use Rattle.mount_state.specs.Represents.{Represents};
ghost use Rattle.mount_files.specs.Closing.{is_lasting, is_key_needed, disk_after_close, keys_after_close, modes_after_close};
ghost use Rattle.mount_files.specs.Closing.{names_after_close};
ghost use Rattle.mount_files.specs.Opening.{ClosesOne, SameButClosed};

use crate::needs::key_kind_of;
use dentry_cache::NameCache;
use disk_tree::{Body, DiskTree, StoredNode};
use fsc_keys::KeyId;
use inode_refs::InodeCache;
use key_ring::{KeyRing, ModeKeys};
use mount_model::{Refusal, Reply};
use mount_state::MountState;
use policy_ctx::{CONTEXT_LEN, id_in, is_by_mode};

/// Closes the caller's handle of this number. Closing the last handle on a node removes:
/// - the node's key, if no user has a claim on the master key, and with it a directory's cached names;
/// - under flag 8 the mode key, if no other handle uses it;
/// - the node itself, if it has no name and is not the root.
///
/// Keys that are removed are wiped. Returns BadHandle exactly when the caller has no such handle. Takes no
/// memory.
pub fn close(state: &mut MountState, caller: u32, handle: u32) -> Reply
    ensures bad { node_of state.old.handles.live caller handle ≡ None
        → result ≡ Reply.Refused Refusal.BadHandle }
    ensures closed { IfSome (node_of state.old.handles.live caller handle) (λ node.
        (result ≡ Reply.Done) × ClosesOne state.old state.new caller handle node) }
    ensures refused { is_refused result ≡ true → SameButCaches state.old state.new }
    ensures same { SameButClosed state.old state.new }
    ensures gone { (id : KeyId)
        → key_state state.new.disk state.new.ring.claims state.new.handles.live id ≡ Absent
        → HoldsNothing state.new.disk state.new.ring state.new.inodes state.new.modes state.new.names id }
    ensures represents { (m : PlainMount) → Represents state.old m
        → IsAnswerOf (answer_to_close m caller handle) result state.new }
{
    let Some(node) = state.handles.node_of(caller, handle) else {
        hold_what_is_needed(state);
        return Reply::Refused(Refusal::BadHandle);
    };
    close_on(state, caller, handle, node);
    hold_what_is_needed(state);
    Reply::Done
}

// That nothing of an absent key is held.
fn hold_what_is_needed(state: &MountState)
    ensures { (id : KeyId) → key_state state.now.disk state.now.ring.claims state.now.handles.live id ≡ Absent
        → HoldsNothing state.now.disk state.now.ring state.now.inodes state.now.modes state.now.names id }
{
    let _exact = state.ring.claims();
    let _used = state.modes.users_of(&KeyId([0; 16]));
}

// Closes the handle, which is on the node.
fn close_on(state: &mut MountState, caller: u32, handle: u32, node: u32)
    requires { node_of state.old.handles.live caller handle ≡ Some node }
    ensures closed { ClosesOne state.old state.new caller handle node }
    ensures same { SameButClosed state.old state.new }
    ensures represents { (m : PlainMount) → Represents state.old m
        → Represents state.new (with_closed m caller handle node) }
{
    state.handles.close(caller, handle);
    state.inodes.unpin(node);
    release_mode(&state.disk, &mut state.modes, node);
    forget_key(&state.disk, &state.ring, &mut state.inodes, node);
    forget_names(
        &state.disk,
        &state.ring,
        &state.inodes,
        &mut state.names,
        node,
    );
    forget_node(&mut state.disk, &state.inodes, node);
}

// Removes one user from the mode key that the node uses.
fn release_mode(disk: &DiskTree, modes: &mut ModeKeys, node: u32)
    requires { (id : KeyId) (kind : KeyKind) → uses_mode disk.now id kind node ≡ true
        → 1 ≤ users_in (of_kind modes.old kind) id }
    ensures { modes.new ≡ modes_after_close disk.now modes.old node }
{
    let Some(stored) = disk.node(node) else {
        return;
    };
    let Some(context) = &stored.context else {
        return;
    };
    if is_by_mode(context) {
        modes.release(&id_in(context), key_kind_of(&stored.body));
    }
}

// Removes the key of a node without pins, if the node is not to stay or no user has a claim on the master
// key.
fn forget_key(disk: &DiskTree, ring: &KeyRing, inodes: &mut InodeCache, node: u32)
    ensures { inodes.new ≡ record inodes.old {
      keys = keys_after_close disk.now ring.now.claims inodes.old.keys (not (is_unpinned inodes.old node)) node;
    } }
{
    if is_key_kept(disk, ring, inodes, node) {
        return;
    }
    inodes.drop_key(node);
}

// Removes the cached names of a directory if its key is removed.
fn forget_names(
    disk: &DiskTree,
    ring: &KeyRing,
    inodes: &InodeCache,
    names: &mut NameCache,
    node: u32,
)
    ensures { names.new ≡ names_after_close disk.now ring.now.claims names.old
        (not (is_unpinned inodes.now node)) node }
{
    if is_key_kept(disk, ring, inodes, node) || !is_dir(disk, node) {
        return;
    }
    names.forget_dir(node);
}

// Whether the node's key stays: the node has pins, or it is to stay and its key is required.
fn is_key_kept(disk: &DiskTree, ring: &KeyRing, inodes: &InodeCache, node: u32) -> bool
    ensures { result ≡ (not (is_unpinned inodes.now node)
        || (is_lasting disk.now node && is_key_needed ring.now.claims (context_on_disk (get disk.now node)))) }
{
    inodes.pins(node) > 0 || (is_lasting(disk, node) && is_key_needed(disk, ring, node))
}

// Whether the number is that of a directory.
fn is_dir(disk: &DiskTree, node: u32) -> bool
    ensures { result ≡ is_dir_on_disk disk.now node }
{
    match disk.node(node) {
        Some(stored) => match stored.body {
            Body::Dir(_) => true,
            Body::File { .. } | Body::Link(_) => false,
        },
        None => false,
    }
}

// Removes the node, if it has no pins and isn't to stay.
fn forget_node(disk: &mut DiskTree, inodes: &InodeCache, node: u32)
    ensures { disk.new ≡ disk_after_close disk.old (not (is_unpinned inodes.now node)) node }
{
    if inodes.pins(node) > 0 || is_lasting(disk, node) {
        return;
    }
    disk.remove_node(node);
}

// Whether the node stays without a handle: the root, and a node with a name.
fn is_lasting(disk: &DiskTree, node: u32) -> bool
    ensures { result ≡ is_lasting disk.now node }
{
    node == 0
        || match disk.node(node) {
            Some(stored) => stored.named,
            None => false,
        }
}

// Whether the node's key stays without a handle: some user has a claim on the master key that its context
// names. It stays too if the node has no context.
fn is_key_needed(disk: &DiskTree, ring: &KeyRing, node: u32) -> bool
    ensures { result ≡ is_key_needed ring.now.claims (context_on_disk (get disk.now node)) }
{
    match disk.node(node) {
        Some(
            StoredNode {
                context: Some(context),
                ..
            },
        ) => is_claimed(ring, context),
        _ => true,
    }
}

// Whether some user has a claim on the master key that the context names.
fn is_claimed(ring: &KeyRing, context: &[u8; CONTEXT_LEN]) -> bool
    ensures { result ≡ is_present ring.now.claims (id_in context.now) }
{
    ring.claims().count_of_id(&id_in(context)) > 0
}
