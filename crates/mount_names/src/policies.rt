//! A directory gets a policy.

ghost use Rattle.std.specs.Prelude.{◌≡◌, ◌+◌, ◌<◌, ◌≤◌, ◌^◌, true, length, None, is_none};
ghost use Rattle.std.specs.Prelude.{OnOk, OnErr, if◌then◌else◌};
ghost use Rattle.number_map.specs.Numbered as map;
ghost use Rattle.user_claims.specs.ClaimCounts.{is_present};
ghost use Rattle.inode_refs.specs.CacheMaps.{pins_of};
ghost use Rattle.key_ring.specs.ModeUsers.{users_of};
ghost use Rattle.disk_tree.specs.DiskTree.{IsDirAt};
ghost use Rattle.mount_model.specs.Carried.{IsPath};
ghost use Rattle.mount_model.specs.ClaimHistory.{is_refused};
ghost use Rattle.mount_model.specs.PlainMount.{PlainMount};
ghost use Rattle.mount_model.specs.PolicyAnswers as policy;
ghost use Rattle.mount_model.specs.PolicyAnswers.{answer_to_set_at, answer_to_set_policy};
ghost use Rattle.mount_model.specs.SpelledPolicy.{is_same_policy};
ghost use Rattle.mount_state.specs.Contexts.{context_on_disk};
ghost use Rattle.mount_state.specs.AnswerOf.{IsAnswerOrNoMemory, IsExpectedRefusal};
ghost use Rattle.mount_state.specs.PassedEntries.{CachesPassed};
ghost use Rattle.mount_state.specs.SameButCaches.{SameButCaches};
ghost use Rattle.mount_state.specs.Represents.{Represents};
ghost use Rattle.mount_names.specs.EncryptedDirs.{EncryptsAt, EncryptsOpen, SetsAt, keys_with, modes_with};
ghost use Rattle.mount_names.specs.SameButTree.{SameButPolicies};

use crate::ciphers::derived_file_key;
use crate::contexts::context_at;
use disk_tree::DiskTree;
use fsc_keys::{FileKey, KeyId, KeyKind};
use inode_refs::InodeCache;
use key_ring::ModeKeys;
use mount_model::{Path, Refusal, Reply};
use mount_state::{MountState, walked_node};
use name_crypt::Steps;
use policy_ctx::{Context, POLICY_LEN, Policy, decode_policy, encode_context, same_policy};
use std::alloc::{AllocError, Global};
use std::sync::ledger::Ledger;

/// Gives the empty directory at the end of the path the policy that these bytes spell, in Linux's layout,
/// with this nonce. From then on its names are stored encrypted.
///
/// Refused as the walk is, then with NotDir, then with Inval for the root and for bytes that are no policy.
/// If the directory has this very policy, the call is done and the nonce stays. If it has another one,
/// Exists. Then NotEmpty, and NoKey if the policy's key isn't present, or if the user isn't user 0 and has
/// no claim on it. Last NoMemory, if there is no memory for the key that the handles on the directory need
/// from then on. Without handles it never fails for lack of memory.
pub fn set_policy<L: Ledger>(
    alloc: Global,
    state: &mut MountState,
    uid: u32,
    path: &Path,
    policy: &[u8; POLICY_LEN],
    nonce: &[u8; 16],
    steps: &mut Steps<L>,
) -> Reply
    ensures represents { (m : PlainMount) → Represents state.old m → IsPath path.now
        → IsAnswerOrNoMemory m (answer_to_set_policy m uid path.now policy.now nonce.now) result state.new }
    ensures due { (m : PlainMount) → Represents state.old m
        → IsExpectedRefusal (answer_to_set_policy m uid path.now policy.now nonce.now) result }
    ensures refused { is_refused result ≡ true → SameButCaches state.old state.new }
    ensures same { SameButPolicies state.old state.new }
    ensures ticks { steps.new ≤ steps.old + length path.now }
    ensures brought { CachesPassed state.old state.new path.now }
{
    match walked_node(alloc, state, path, steps) {
        Ok(number) => set_at(alloc, state, uid, number, policy, nonce),
        Err(refusal) => Reply::Refused(refusal),
    }
}

// Gives the node the policy that the bytes spell.
fn set_at(
    alloc: Global,
    state: &mut MountState,
    uid: u32,
    number: u32,
    policy: &[u8; POLICY_LEN],
    nonce: &[u8; 16],
) -> Reply
    ensures represents { SetsAt state.old state.new uid number policy.now nonce.now result }
    ensures due { (m : PlainMount) → Represents state.old m
        → IsExpectedRefusal (answer_to_set_at m uid policy.now nonce.now number) result }
    ensures refused { is_refused result ≡ true → SameButCaches state.old state.new }
    ensures same { SameButPolicies state.old state.new }
    ensures names { state.new.names ≡ state.old.names }
{
    if !state.disk.is_dir(number) {
        return Reply::Refused(Refusal::NotDir);
    }
    if number == 0 {
        return Reply::Refused(Refusal::Inval);
    }
    let Ok(policy) = decode_policy(policy) else {
        return Reply::Refused(Refusal::Inval);
    };
    if is_plain(&state.disk, number) {
        let nonce = *nonce;
        return encrypt(alloc, state, uid, number, &Context { policy, nonce });
    }
    match context_at(state, number) {
        Some(context) => kept(&context.policy, &policy),
        None => Reply::Refused(Refusal::Exists),
    }
}

// Whether the node has no context.
fn is_plain(disk: &DiskTree, number: u32) -> bool
    ensures { result ≡ is_none (context_on_disk (map.get disk.now number)) }
{
    match disk.node(number) {
        Some(node) => node.context.is_none(),
        None => true,
    }
}

// Retains the directory's policy. Returns `Done` if it is the policy that was passed, else Exists.
fn kept(old: &Policy, new: &Policy) -> Reply
    ensures { result ≡ (if is_same_policy old.now new.now then Reply.Done else Reply.Refused Refusal.Exists) }
{
    if same_policy(old, new) {
        Reply::Done
    } else {
        Reply::Refused(Refusal::Exists)
    }
}

// Gives the directory, which has none, this context.
fn encrypt(alloc: Global, state: &mut MountState, uid: u32, dir: u32, context: &Context) -> Reply
    requires dir { IsDirAt state.old.disk dir }
    requires sized { length context.now.policy.id.0 ≡ 16 }
    requires plain { context_on_disk (map.get state.old.disk dir) ≡ None }
    ensures represents { EncryptsAt state.old state.new uid dir context.now result }
    ensures due { (m : PlainMount) → Represents state.old m
        → IsExpectedRefusal (policy.answer_to_encrypt m uid dir context.now None) result }
    ensures refused { is_refused result ≡ true → SameButCaches state.old state.new }
    ensures same { SameButPolicies state.old state.new }
    ensures names { state.new.names ≡ state.old.names }
{
    if state.disk.entry_count(dir) > 0 {
        return Reply::Refused(Refusal::NotEmpty);
    }
    if !may_use(state, uid, &context.policy.id) {
        return Reply::Refused(Refusal::NoKey);
    }
    let handles = state.inodes.pins(dir);
    if handles == 0 {
        state.disk.set_context(dir, encode_context(context));
        return Reply::Done;
    }
    encrypt_open(alloc, state, dir, handles, context)
}

// The same if `handles` handles are open on the directory: they need its key from then on.
fn encrypt_open(
    alloc: Global,
    state: &mut MountState,
    dir: u32,
    handles: u32,
    context: &Context,
) -> Reply
    requires dir { IsDirAt state.old.disk dir }
    requires sized { length context.now.policy.id.0 ≡ 16 }
    requires plain { context_on_disk (map.get state.old.disk dir) ≡ None }
    requires pins { handles ≡ pins_of state.old.inodes dir }
    requires some { 1 ≤ handles }
    requires present { is_present state.old.ring.claims context.now.policy.id ≡ true }
    ensures represents { EncryptsOpen state.old state.new dir context.now result }
    ensures refused { is_refused result ≡ true → SameButCaches state.old state.new }
    ensures same { SameButPolicies state.old state.new }
    ensures names { state.new.names ≡ state.old.names }
{
    let Some(key) = derived_file_key(state, context) else {
        return Reply::Refused(Refusal::NoKey);
    };
    match hold_key(
        alloc,
        &mut state.inodes,
        &mut state.modes,
        dir,
        handles,
        context,
        key,
    ) {
        Ok(()) => {
            state.disk.set_context(dir, encode_context(context));
            Reply::Done
        }
        Err(_) => Reply::Refused(Refusal::NoMemory),
    }
}

// Caches the key of the directory's names; under flag 8 the key of the mode is held once for each handle.
fn hold_key(
    alloc: Global,
    inodes: &mut InodeCache,
    modes: &mut ModeKeys,
    dir: u32,
    handles: u32,
    context: &Context,
    key: FileKey,
) -> Result<(), AllocError>
    requires some { 1 ≤ handles }
    requires fit { users_of modes.old context.now.policy.id + handles < 2 ^ 32 }
    ensures inodes { OnOk result (inodes.new ≡ keys_with inodes.old dir context.now key) }
    ensures modes { OnOk result (modes.new ≡ modes_with modes.old handles context.now key) }
    ensures inodes_kept { OnErr result (inodes.new ≡ inodes.old) }
    ensures modes_kept { OnErr result (modes.new ≡ modes.old) }
{
    let id = context.policy.id;
    if context.policy.by_mode {
        return modes.hold(alloc, &id, KeyKind::Names, key, handles);
    }
    inodes.keep(alloc, dir, id, key)
}

// Whether the user may use the key: user 0 if it is present, another user if they have a claim.
fn may_use(state: &MountState, uid: u32, id: &KeyId) -> bool
    ensures represents { (m : PlainMount) → Represents state.now m → result ≡ policy.may_use m uid id.now }
    ensures present { result ≡ true → is_present state.now.ring.claims id.now ≡ true }
{
    if uid == 0 {
        return state.ring.claims().count_of_id(id) > 0;
    }
    state.ring.claims().has(id, uid)
}
