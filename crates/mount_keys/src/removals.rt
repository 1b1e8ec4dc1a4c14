//! A user removes a claim.

ghost use Rattle.std.specs.Prelude.{◌≡◌, true, false};
ghost use Rattle.user_claims.specs.Claims.{has_claim};
ghost use Rattle.user_claims.specs.ClaimCounts.{is_present};
ghost use Rattle.mount_model.specs.PlainMount.{PlainMount};
ghost use Rattle.mount_model.specs.ClaimHistory.{is_refused};
ghost use Rattle.mount_model.specs.RemovalAnswers.{answer_to_remove_key};
ghost use Rattle.mount_state.specs.AnswerOf.{IsAnswerOf};
ghost use Rattle.mount_keys.specs.KeyReplies.{reply_of_removal};
ghost use Rattle.mount_keys.specs.ClaimChanges.{LosesClaim, SameButKeyed};
ghost use Rattle.mount_state.specs.KeyUse.{HoldsNothing};
ghost use Rattle.mount_state.specs.SameBut.{IsSame};
ghost use Rattle.mount_state.specs.Represents.{Represents};

use mount_model::{KeyId, Refusal, Reply};
use mount_state::MountState;

/// Removes the user's claim on the key. With the last claim the secret is wiped and dropped, and so is
/// each cached key that was derived from it and that no handle needs. Then all cached names are dropped
/// too. If no user has a claim and a handle still needs the key, nothing changes.
///
/// Refused with NoKey if the key is absent, or some user has a claim on it and this one hasn't. Returns
/// whether another claim is left and, if none is, whether a handle still needs the key. If neither, no
/// part of the key is held. It takes no memory.
pub fn remove_key(state: &mut MountState, uid: u32, id: &KeyId) -> Reply
    ensures told { result ≡ reply_of_removal state.old uid id.now }
    ensures kept { is_refused result ≡ true → IsSame state.old state.new }
    ensures taken { is_refused result ≡ false → LosesClaim state.old state.new uid id.now }
    ensures same { SameButKeyed state.old state.new }
    ensures gone { result ≡ Reply.Removed false false
        → HoldsNothing state.new.disk state.new.ring state.new.inodes state.new.modes state.new.names id.now }
    ensures represents { (m : PlainMount) → Represents state.old m
        → IsAnswerOf (answer_to_remove_key m uid id.now) result state.new }
{
    let busy = state.is_busy(id);
    if state.ring.claims().has(id, uid) {
        let others = take_claim(state, uid, id);
        return Reply::Removed {
            others,
            busy: !others && busy,
        };
    }
    if busy && state.ring.claims().count_of_id(id) == 0 {
        return Reply::Removed {
            others: false,
            busy,
        };
    }
    Reply::Refused(Refusal::NoKey)
}

// Removes the user's claim, and returns whether another one on the key is left.
fn take_claim(state: &mut MountState, uid: u32, id: &KeyId) -> bool
    requires { has_claim state.old.ring.claims id.now uid ≡ true }
    ensures left { result ≡ is_present state.new.ring.claims id.now }
    ensures taken { LosesClaim state.old state.new uid id.now }
    ensures same { SameButKeyed state.old state.new }
{
    let left = state.ring.take_claim(id, uid);
    if left > 0 {
        return true;
    }
    state.inodes.evict_unpinned(id);
    state.names.forget_all();
    false
}
