//! The calls on records.

ghost use Rattle.std.specs.Prelude.{ℕ, IsTrue};
ghost use Rattle.call_history.specs.Entries.{entry};
ghost use Rattle.mount_shared.specs.Groups.{is_on_records};
ghost use Rattle.mount_shared.specs.Made.{IsMade};
ghost use Rattle.mount_shared.specs.OtherReports.{ReportsRecords};

use mount_model::{Call, Op, Reply};
use mount_records::{meta_load, meta_store};
use mount_state::MountState;
use std::alloc::Global;

// The reply to a call on records.
pub(crate) fn reply_on_records(alloc: Global, state: &mut MountState, call: &Call) -> Reply
    requires { IsTrue (is_on_records call.now.op) }
    ensures made { (caller : ℕ) → IsMade state.old (entry caller call.now result) state.new }
    ensures records { ReportsRecords state.old call.now.op result }
{
    match &call.op {
        Op::MetaLoad { name } => meta_load(alloc, state, name),
        Op::MetaStore {
            name,
            expected,
            bytes,
        } => meta_store(alloc, state, name, *expected, bytes),
        _ => unreachable!(),
    }
}
