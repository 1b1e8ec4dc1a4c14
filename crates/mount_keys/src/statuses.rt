//! The status of a key.

ghost use Rattle.std.specs.Prelude.{◌≡◌, ℕ, Bool};
ghost use Rattle.mount_model.specs.declared.reply.KeyState.TheVariants.{Absent};
ghost use Rattle.mount_model.specs.PlainMount.{PlainMount};
ghost use Rattle.mount_model.specs.KeyAnswers.{answer_to_key_status};
ghost use Rattle.mount_state.specs.AnswerOf.{IsAnswerOf};
ghost use Rattle.mount_keys.specs.KeyReplies.{reply_of_status};
ghost use Rattle.mount_state.specs.KeyUse.{HoldsNothing};
ghost use Rattle.mount_state.specs.Represents.{Represents};

use mount_model::{KeyId, Reply};
use mount_state::MountState;

/// Returns the state of the key, whether the user has a claim on it, and how many users have one. If the
/// state is Absent, no part of the key is held. It takes no memory, and is never refused.
pub fn key_status(state: &MountState, uid: u32, id: &KeyId) -> Reply
    ensures told { result ≡ reply_of_status state.now uid id.now }
    ensures gone { (by_self : Bool) (users : ℕ) → result ≡ Reply.Status Absent by_self users
        → HoldsNothing state.now.disk state.now.ring state.now.inodes state.now.modes state.now.names id.now }
    ensures represents { (m : PlainMount) → Represents state.now m
        → IsAnswerOf (answer_to_key_status m uid id.now) result state.now }
{
    let claims = state.ring.claims();
    Reply::Status {
        state: state.status(id),
        by_self: claims.has(id, uid),
        users: claims.count_of_id(id),
    }
}
