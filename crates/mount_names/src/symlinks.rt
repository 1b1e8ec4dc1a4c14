//! The call that makes a symlink.

ghost use Rattle.std.specs.Prelude.{◌≡◌, ◌+◌, ◌<◌, ◌≤◌, ◌^◌, false, true, length, Some};
ghost use Rattle.disk_tree.specs.DiskTree.{IsDirAt};
ghost use Rattle.plain_tree.specs.Nodes as node;
ghost use Rattle.mount_model.specs.Carried.{IsPath, IsTarget};
ghost use Rattle.mount_model.specs.ClaimHistory.{is_refused};
ghost use Rattle.mount_model.specs.NameAnswers.{answer_to_make};
ghost use Rattle.mount_model.specs.EncryptedNames.{lacks_key};
ghost use Rattle.mount_model.specs.EntryPaths.{parent_parts};
ghost use Rattle.mount_model.specs.PlainMount.{PlainMount};
ghost use Rattle.mount_state.specs.AnswerOf.{IsAnswerOrNoMemory, IsExpectedRefusal};
ghost use Rattle.mount_state.specs.PassedEntries.{CachesPassed};
ghost use Rattle.mount_state.specs.SameButCaches.{SameButCaches};
ghost use Rattle.mount_state.specs.Represents.{Represents};
ghost use Rattle.mount_state.specs.Stored.{stored_form};
ghost use Rattle.mount_names.specs.NewEntries.{LinksAt};
ghost use Rattle.mount_names.specs.SameButTree.{SameButTree};

use crate::ciphers::derived_cipher;
use crate::makes::{context_of_new, make};
use crate::places::{Place, place_at};
use crate::stored_names::encrypt_stored_name;
use disk_tree::Body;
use item_list::Bytes;
use mount_model::{Path, Refusal, Reply};
use mount_state::MountState;
use name_crypt::{MAX_NAME_BYTES, Plain, Steps};
use policy_ctx::Context;
use short_bytes::Filled;
use std::alloc::Global;
use std::sync::ledger::Ledger;

/// Makes a symlink to the target at the end of the path, as `mkdir` makes a directory. In a directory with
/// a policy the target is stored encrypted.
///
/// Refused as `mkdir` is, and with NameTooLong for a target of more than `MAX_NAME_BYTES` bytes, after
/// Exists and before NoKeyClash.
pub fn symlink<L: Ledger>(
    alloc: Global,
    state: &mut MountState,
    path: &Path,
    target: &Bytes,
    nonce: &[u8; 16],
    steps: &mut Steps<L>,
) -> Reply
    ensures represents { (m : PlainMount) → Represents state.old m → IsPath path.now → IsTarget target.now
        → IsAnswerOrNoMemory m (answer_to_make m path.now nonce.now (node.Link target.now)) result state.new }
    ensures due { (m : PlainMount) → Represents state.old m → IsPath path.now → IsTarget target.now
        → IsExpectedRefusal (answer_to_make m path.now nonce.now (node.Link target.now)) result }
    ensures refused { is_refused result ≡ true → SameButCaches state.old state.new }
    ensures same { SameButTree state.old state.new }
    ensures ticks { steps.new ≤ steps.old + length path.now + 1 }
    ensures brought { CachesPassed state.old state.new (parent_parts path.now) }
{
    let long = target.len() > MAX_NAME_BYTES;
    let mut room = [0; MAX_NAME_BYTES];
    match place_at(alloc, state, path, long, &mut room, steps) {
        Ok(place) => link_at(alloc, state, &place, target, nonce, steps),
        Err(refusal) => Reply::Refused(refusal),
    }
}

// Makes the symlink at the place.
fn link_at<L: Ledger>(
    alloc: Global,
    state: &mut MountState,
    place: &Place,
    target: &Bytes,
    nonce: &[u8; 16],
    steps: &mut Steps<L>,
) -> Reply
    requires dir { IsDirAt state.old.disk place.now.dir }
    requires room { state.old.next_node + 1 < 2 ^ 32 }
    ensures represents { LinksAt state.old state.new place.now nonce.now target.now result }
    ensures refused { is_refused result ≡ true → SameButCaches state.old state.new }
    ensures same { SameButTree state.old state.new }
    ensures names { state.new.names ≡ state.old.names }
    ensures ticks { steps.new ≤ steps.old + 1 }
{
    let Ok(plain) = Plain::read(target.as_slice()) else {
        return Reply::Refused(Refusal::Inval);
    };
    let context = context_of_new(place, nonce);
    let Some(stored) = target_stored(state, &context, &plain, steps) else {
        return Reply::Refused(Refusal::NoKey);
    };
    match Vec::from_slice(alloc, stored.bytes()) {
        Ok(bytes) => make(
            alloc,
            state,
            place,
            nonce,
            Body::Link(Bytes::from_vec(bytes)),
        ),
        Err(_) => Reply::Refused(Refusal::NoMemory),
    }
}

// Returns the target of the next node, as it is stored under this context: under a key that is derived for
// it. `None` if no user has a claim.
fn target_stored<L: Ledger>(
    state: &MountState,
    context: &Option<Context>,
    target: &Plain,
    steps: &mut Steps<L>,
) -> Option<Filled<MAX_NAME_BYTES>>
    ensures value { (m : PlainMount) → Represents state.now m → lacks_key m context.now ≡ false
        → result ≡ Some (stored_form m.raws state.now.next_node context.now target.now) }
    ensures ticks { steps.new ≤ steps.old + 1 }
{
    match context {
        Some(context) => match derived_cipher(state, state.next_node, context) {
            Some(mut cipher) => {
                let stored = encrypt_stored_name(&cipher, context.policy.pad, target, steps);
                cipher.wipe();
                Some(stored)
            }
            None => None,
        },
        None => Some(Filled::of(target.bytes())),
    }
}
