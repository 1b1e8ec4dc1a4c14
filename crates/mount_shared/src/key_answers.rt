//! The calls on keys.

ghost use Rattle.std.specs.Prelude.{ℕ, IsTrue};
ghost use Rattle.call_history.specs.Entries.{entry};
ghost use Rattle.mount_shared.specs.DropsCaches.{DropsCaches};
ghost use Rattle.mount_shared.specs.Groups.{is_on_keys};
ghost use Rattle.mount_shared.specs.Made.{IsMade};
ghost use Rattle.mount_shared.specs.KeyReports.{AbsentHoldsNothing, BusyIsOpen};

use mount_keys::{add_key, drop_caches, key_status, remove_key, remove_key_all};
use mount_model::{Call, Op, Reply};
use mount_state::MountState;
use std::alloc::Global;

// The reply to a call on keys.
pub(crate) fn reply_on_keys(alloc: Global, state: &mut MountState, call: &Call) -> Reply
    requires { IsTrue (is_on_keys call.now.op) }
    ensures made { (caller : ℕ) → IsMade state.old (entry caller call.now result) state.new }
    ensures absent { AbsentHoldsNothing state.new call.now.op result }
    ensures busy { BusyIsOpen state.new call.now.op result }
    ensures drops { DropsCaches state.old state.new call.now.op }
{
    match &call.op {
        Op::AddKey { raw } => add_key(alloc, state, call.uid, raw),
        Op::RemoveKey { id } => remove_key(state, call.uid, id),
        Op::RemoveKeyAll { id } => remove_key_all(state, call.uid, id),
        Op::KeyStatus { id } => key_status(state, call.uid, id),
        Op::DropCaches => drop_caches(state),
        _ => unreachable!(),
    }
}
