//! Loading a record.

ghost use Rattle.std.specs.Prelude.{◌≡◌, IfSome, IfNone};
ghost use Rattle.meta_files.specs.Records.{record_of};
ghost use Rattle.mount_model.specs.PlainMount.{PlainMount};
ghost use Rattle.mount_model.specs.RecordAnswers.{answer_to_meta_load};
ghost use Rattle.mount_state.specs.AnswerOf.{IsReplyOrNoMemory, IsAnswerOrNoMemory};
ghost use Rattle.mount_state.specs.Represents.{Represents};

use mount_model::{Bytes, Refusal, Reply};
use mount_state::MountState;
use std::alloc::Global;

/// Returns the version and a copy of the bytes of the record of this name. NotFound exactly when there is
/// none. Only the copy takes memory.
pub fn meta_load(alloc: Global, state: &MountState, name: &Bytes) -> Reply
    ensures held { IfSome (record_of state.now.meta name.now)
        (λ kept. IsReplyOrNoMemory (Reply.Held kept.0 kept.1) result) }
    ensures absent { IfNone (record_of state.now.meta name.now)
        (result ≡ Reply.Refused Refusal.NotFound) }
    ensures represents { (m : PlainMount) → Represents state.now m
        → IsAnswerOrNoMemory m (answer_to_meta_load m name.now) result state.now }
{
    match state.meta.load(alloc, name.as_slice()) {
        Ok(Some((version, bytes))) => Reply::Held { version, bytes },
        Ok(None) => Reply::Refused(Refusal::NotFound),
        Err(_) => Reply::Refused(Refusal::NoMemory),
    }
}
