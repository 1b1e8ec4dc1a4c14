//! A call is passed to the crate that answers it.

ghost use Rattle.std.specs.Prelude.{◌≡◌, ◌<◌};
ghost use Rattle.call_history.specs.Entries.{entry};
ghost use Rattle.mount_files.specs.Pending.{reply_of};
ghost use Rattle.mount_model.specs.Fits.{Fits};
ghost use Rattle.mount_shared.specs.DropsCaches.{DropsCaches};
ghost use Rattle.mount_shared.specs.PendingBlocks.{IsPendingOfHandle};
ghost use Rattle.mount_shared.specs.Made.{IsMade};
ghost use Rattle.mount_shared.specs.KeyReports.{AbsentHoldsNothing, BusyIsOpen};
ghost use Rattle.mount_shared.specs.OtherReports.{ClosesOwn, ReportsRecords};

use crate::file_answers::answer_on_files;
use crate::key_answers::reply_on_keys;
use crate::name_answers::reply_on_names;
use crate::record_answers::reply_on_records;
use mount_files::Pending;
use mount_model::{Call, Op};
use mount_state::MountState;
use name_crypt::Steps;
use std::alloc::Global;
use std::sync::ledger::{Blank, Ledger};

// Returns the answer to a caller's call, and counts the names that it encrypts on a ledger of its own.
pub(crate) fn answer<L: Ledger>(
    alloc: Global,
    state: &mut MountState,
    caller: u32,
    call: &Call,
    blank: Blank,
) -> Pending
    requires name { blank.name ≡ L.name }
    requires parts { blank.parts ≡ L.parts }
    requires some { 0 < L.parts }
    requires asked { Fits call.now }
    ensures made { IsMade state.old (entry caller call.now (reply_of result)) state.new }
    ensures absent { AbsentHoldsNothing state.new call.now.op (reply_of result) }
    ensures busy { BusyIsOpen state.new call.now.op (reply_of result) }
    ensures drops { DropsCaches state.old state.new call.now.op }
    ensures pending_read { IsPendingOfHandle state.old caller call.now.op result }
    ensures closes { ClosesOwn state.old caller call.now.op (reply_of result) }
    ensures records { ReportsRecords state.old call.now.op (reply_of result) }
{
    let mut steps = Steps::<L>::new(blank);
    match &call.op {
        Op::AddKey { .. }
        | Op::RemoveKey { .. }
        | Op::RemoveKeyAll { .. }
        | Op::KeyStatus { .. }
        | Op::DropCaches => Pending::Ready(reply_on_keys(alloc, state, call)),
        Op::MetaLoad { .. } | Op::MetaStore { .. } => {
            Pending::Ready(reply_on_records(alloc, state, call))
        }
        Op::Stat { .. }
        | Op::List { .. }
        | Op::SetPolicy { .. }
        | Op::GetPolicy { .. }
        | Op::ReadLink { .. }
        | Op::Mkdir { .. }
        | Op::Create { .. }
        | Op::Symlink { .. }
        | Op::Unlink { .. }
        | Op::Rmdir { .. }
        | Op::Rename { .. } => Pending::Ready(reply_on_names(alloc, state, call, &mut steps)),
        Op::OpenNode { .. } | Op::Read { .. } | Op::Write { .. } | Op::Close { .. } => {
            answer_on_files(alloc, state, caller, call, &mut steps)
        }
    }
}
