//! The calls on open files and directories.

ghost use Rattle.std.specs.Prelude.{IsTrue};
ghost use Rattle.call_history.specs.Entries.{entry};
ghost use Rattle.mount_files.specs.Pending.{reply_of};
ghost use Rattle.mount_shared.specs.Groups.{is_on_files};
ghost use Rattle.mount_shared.specs.PendingBlocks.{IsPendingOfHandle};
ghost use Rattle.mount_shared.specs.Made.{IsMade};
ghost use Rattle.mount_shared.specs.OtherReports.{ClosesOwn};

use mount_files::{Pending, close, open_node, read_begin, write};
use mount_model::{Call, Op};
use mount_state::MountState;
use name_crypt::Steps;
use std::alloc::Global;
use std::sync::ledger::Ledger;

// Returns the answer to a call on open files and directories. `steps` counts the names that are encrypted.
pub(crate) fn answer_on_files<L: Ledger>(
    alloc: Global,
    state: &mut MountState,
    caller: u32,
    call: &Call,
    steps: &mut Steps<L>,
) -> Pending
    requires { IsTrue (is_on_files call.now.op) }
    ensures made { IsMade state.old (entry caller call.now (reply_of result)) state.new }
    ensures pending_read { IsPendingOfHandle state.old caller call.now.op result }
    ensures closes { ClosesOwn state.old caller call.now.op (reply_of result) }
{
    match &call.op {
        Op::OpenNode { path } => Pending::Ready(open_node(alloc, state, caller, path, steps)),
        Op::Read {
            handle,
            offset,
            len,
        } => read_begin(alloc, state, caller, *handle, *offset, *len),
        Op::Write {
            handle,
            offset,
            bytes,
        } => Pending::Ready(write(alloc, state, caller, *handle, *offset, bytes)),
        Op::Close { handle } => Pending::Ready(close(state, caller, *handle)),
        _ => unreachable!(),
    }
}
