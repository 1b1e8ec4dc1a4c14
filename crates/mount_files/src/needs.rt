//! Which key a handle on a node needs, and how it is obtained.

ghost use Rattle.std.specs.Prelude.{◌≡◌, true, false, drop, is_some, Some};
ghost use Rattle.number_map.specs.Numbered.{get};
ghost use Rattle.fsc_keys.specs.declared.file_keys.KeyKind.{KeyKind};
ghost use Rattle.policy_ctx.specs.Context.{is_by_mode_in};
ghost use Rattle.mount_model.specs.PlainMount.{PlainMount};
ghost use Rattle.mount_state.specs.Contexts.{context_on_disk};
ghost use Rattle.mount_state.specs.StoredKinds.{kind_on_disk, disk_kind_of};
ghost use Rattle.mount_state.specs.KeyUse.{is_unlocked};
ghost use Rattle.mount_state.specs.Represents.{Represents};
ghost use Rattle.mount_files.specs.Needs.{IsNeedOf, IsNeedIn};

use crate::need::Need;
use disk_tree::Body;
use fsc_keys::{FileKey, KeyKind};
use inode_refs::NodeKey;
use mount_state::MountState;
use policy_ctx::{CONTEXT_LEN, POLICY_LEN, id_in, is_by_mode};

// Returns what a handle on the node needs. The node exists, and its key is available.
pub(crate) fn need_of(state: &MountState, node: u32) -> Need
    requires there { is_some (get state.now.disk node) ≡ true }
    requires keyed { is_unlocked state.now.disk state.now.ring.claims state.now.handles.live node ≡ true }
    ensures need { IsNeedOf state.now.disk state.now.inodes node result }
    ensures represents { (m : PlainMount) → Represents state.now m → IsNeedIn m node result }
{
    let Some(stored) = state.disk.node(node) else {
        unreachable!()
    };
    let Some(context) = &stored.context else {
        return Need::Own(None);
    };
    let kind = key_kind_of(&stored.body);
    if is_by_mode(context) {
        return shared_need(state, node, context, kind);
    }
    own_need(state, node, context, kind)
}

// Returns the key of a node that has one of its own: the cached one, else a derived one.
fn own_need(state: &MountState, node: u32, context: &[u8; CONTEXT_LEN], kind: KeyKind) -> Need
    requires there { context_on_disk (get state.now.disk node) ≡ Some context.now }
    requires kind { kind ≡ kind_on_disk (get state.now.disk node) }
    requires own { is_by_mode_in context.now ≡ false }
    requires keyed { is_unlocked state.now.disk state.now.ring.claims state.now.handles.live node ≡ true }
    ensures need { IsNeedOf state.now.disk state.now.inodes node result }
    ensures represents { (m : PlainMount) → Represents state.now m → IsNeedIn m node result }
{
    if state.inodes.key_of(node).is_some() {
        return Need::Own(None);
    }
    let id = id_in(context);
    // A secret is held exactly when some user has a claim.
    let _exact = state.ring.claims();
    let Some(secret) = state.ring.secret_of(&id) else {
        unreachable!()
    };
    let key = secret.file_key(kind, &nonce_in(context));
    Need::Own(Some(NodeKey { id, key }))
}

// Returns the mode key that the node uses: the one that is held, else a derived one.
fn shared_need(state: &MountState, node: u32, context: &[u8; CONTEXT_LEN], kind: KeyKind) -> Need
    requires there { context_on_disk (get state.now.disk node) ≡ Some context.now }
    requires kind { kind ≡ kind_on_disk (get state.now.disk node) }
    requires shared { is_by_mode_in context.now ≡ true }
    requires keyed { is_unlocked state.now.disk state.now.ring.claims state.now.handles.live node ≡ true }
    ensures need { IsNeedOf state.now.disk state.now.inodes node result }
    ensures represents { (m : PlainMount) → Represents state.now m → IsNeedIn m node result }
{
    let id = id_in(context);
    if let Some(key) = state.modes.key_of(&id, kind) {
        return Need::Shared {
            id,
            kind,
            key: copy_of(key),
        };
    }
    let _exact = state.ring.claims();
    let Some(secret) = state.ring.secret_of(&id) else {
        unreachable!()
    };
    Need::Shared {
        id,
        kind,
        key: secret.mode_key(kind),
    }
}

// Returns the kind of the node's key: what it encrypts.
pub(crate) fn key_kind_of(body: &Body) -> KeyKind
    ensures { result ≡ disk_kind_of body.now }
{
    match body {
        Body::File { .. } => KeyKind::Contents,
        Body::Dir(_) | Body::Link(_) => KeyKind::Names,
    }
}

// Returns the nonce in the bytes of a context.
fn nonce_in(context: &[u8; CONTEXT_LEN]) -> [u8; 16]
    ensures { result ≡ drop 24 context.now }
{
    let mut nonce = [0; 16];
    nonce.copy_from_slice(&context[POLICY_LEN..]);
    nonce
}

// Returns a copy of the key.
fn copy_of(key: &FileKey) -> FileKey
    ensures { result ≡ key.now }
{
    match key {
        FileKey::Contents(bytes) => FileKey::Contents(*bytes),
        FileKey::Names(bytes) => FileKey::Names(*bytes),
    }
}
