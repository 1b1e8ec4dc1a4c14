//! User 0 removes every claim on a key.

ghost use Rattle.std.specs.Prelude.{◌≡◌, true, false};
ghost use Rattle.mount_model.specs.PlainMount.{PlainMount};
ghost use Rattle.mount_model.specs.ClaimHistory.{is_refused};
ghost use Rattle.mount_model.specs.RemovalAnswers.{answer_to_remove_key_all};
ghost use Rattle.mount_state.specs.AnswerOf.{IsAnswerOf};
ghost use Rattle.mount_keys.specs.KeyReplies.{reply_of_clearing};
ghost use Rattle.mount_keys.specs.ClaimChanges.{LosesAllClaims, SameButKeyed};
ghost use Rattle.mount_state.specs.KeyUse.{HoldsNothing};
ghost use Rattle.mount_state.specs.SameBut.{IsSame};
ghost use Rattle.mount_state.specs.Represents.{Represents};

use mount_model::{KeyId, Refusal, Reply};
use mount_state::MountState;

/// Removes every user's claim on the key, with its secret and each cached key that was derived from it
/// and that no handle needs; all of these are wiped. All cached names are dropped.
///
/// Refused with Access for any user but 0, then with NoKey if the key is absent. Returns whether a handle
/// still needs the key. If none does, no part of the key is held. It takes no memory.
pub fn remove_key_all(state: &mut MountState, uid: u32, id: &KeyId) -> Reply
    ensures told { result ≡ reply_of_clearing state.old uid id.now }
    ensures kept { is_refused result ≡ true → IsSame state.old state.new }
    ensures taken { is_refused result ≡ false → LosesAllClaims state.old state.new id.now }
    ensures same { SameButKeyed state.old state.new }
    ensures gone { result ≡ Reply.Removed false false
        → HoldsNothing state.new.disk state.new.ring state.new.inodes state.new.modes state.new.names id.now }
    ensures represents { (m : PlainMount) → Represents state.old m
        → IsAnswerOf (answer_to_remove_key_all m uid id.now) result state.new }
{
    if uid != 0 {
        return Reply::Refused(Refusal::Access);
    }
    let busy = state.is_busy(id);
    if !busy && state.ring.claims().count_of_id(id) == 0 {
        return Reply::Refused(Refusal::NoKey);
    }
    take_all_claims(state, id);
    Reply::Removed {
        others: false,
        busy,
    }
}

// Removes every claim on the key.
fn take_all_claims(state: &mut MountState, id: &KeyId)
    ensures taken { LosesAllClaims state.old state.new id.now }
    ensures same { SameButKeyed state.old state.new }
{
    state.ring.clear(id);
    state.inodes.evict_unpinned(id);
    state.names.forget_all();
}
