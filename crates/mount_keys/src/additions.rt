//! A user claims a key.

ghost use Rattle.std.specs.Prelude.{◌≡◌, true, false, IfSome, IfNone};
ghost use Rattle.std.specs.FinMap as map;
ghost use Rattle.fsc_keys.specs.Keys.{key_id_of};
ghost use Rattle.mount_model.specs.declared.reply.KeyState.TheVariants.{Present};
ghost use Rattle.mount_model.specs.PlainMount.{PlainMount};
ghost use Rattle.mount_model.specs.ClaimHistory.{is_refused};
ghost use Rattle.mount_model.specs.KeyAnswers.{answer_to_add_key};
ghost use Rattle.mount_model.specs.Lawful.{AgreesWith};
ghost use Rattle.mount_state.specs.AnswerOf.{IsReplyOrNoMemory, IsAnswerOrNoMemory};
ghost use Rattle.mount_keys.specs.KeyReplies.{add_fault};
ghost use Rattle.mount_keys.specs.ClaimChanges.{GainsClaim, SameButRing};
ghost use Rattle.mount_state.specs.KeyUse.{key_state};
ghost use Rattle.mount_state.specs.SameBut.{IsSame};
ghost use Rattle.mount_state.specs.Represents.{Represents};

use fsc_keys::RawKey;
use key_ring::ClaimFault;
use mount_model::{Bytes, Refusal, Reply};
use mount_state::MountState;
use std::alloc::Global;

/// Claims the key of these bytes for the user, and returns its identifier. The key is present from then
/// on, whatever it was before, and all that is cached remains.
///
/// Refused with Inval for fewer than `MIN_RAW_KEY_BYTES` or more than `MAX_RAW_KEY_BYTES`. Then
/// refused with Quota if the claim would be a new one and the user has `MAX_CLAIMS`. Else it may be out
/// of memory. After a refusal the state is as before. The copy that the call makes of the bytes is wiped;
/// the caller's own is not.
pub fn add_key(alloc: Global, state: &mut MountState, uid: u32, raw: &Bytes) -> Reply
    ensures refused { IfSome (add_fault state.old.ring.claims uid raw.now)
        (λ refusal. result ≡ Reply.Refused refusal) }
    ensures accepted { IfNone (add_fault state.old.ring.claims uid raw.now)
        (IsReplyOrNoMemory (Reply.Added (key_id_of raw.now)) result) }
    ensures kept { is_refused result ≡ true → IsSame state.old state.new }
    ensures gained { is_refused result ≡ false → GainsClaim state.old state.new uid raw.now }
    ensures present { is_refused result ≡ false
        → key_state state.new.disk state.new.ring.claims state.new.handles.live (key_id_of raw.now)
        ≡ Present }
    ensures same { SameButRing state.old state.new }
    ensures represents { (m : PlainMount) → Represents state.old m
        → (is_refused result ≡ false → AgreesWith m.raws raw.now)
        → IsAnswerOrNoMemory m (answer_to_add_key m uid raw.now) result state.new }
{
    let mut key = match RawKey::read(raw.as_slice()) {
        Ok(key) => key,
        Err(_) => return Reply::Refused(Refusal::Inval),
    };
    let added = state.ring.add(alloc, &key, uid);
    key.wipe();
    match added {
        Ok(id) => {
            // Each mode key has users, so a mode key of this identifier was derived from this raw key.
            let _used = state.modes.users_of(&id);
            Reply::Added(id)
        }
        Err(ClaimFault::Quota) => Reply::Refused(Refusal::Quota),
        Err(ClaimFault::NoMemory) => Reply::Refused(Refusal::NoMemory),
    }
}
