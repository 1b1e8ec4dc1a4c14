//! Storing a record.

ghost use Rattle.std.specs.Prelude.{◌≡◌, ◌+◌, true, false, IfSome, IfNone};
ghost use Rattle.meta_files.specs.Records.{version_of, with_record};
ghost use Rattle.meta_files.specs.Faults.{store_fault};
ghost use Rattle.mount_model.specs.PlainMount.{PlainMount};
ghost use Rattle.mount_model.specs.ClaimHistory.{is_refused};
ghost use Rattle.mount_model.specs.RecordAnswers.{answer_to_meta_store};
ghost use Rattle.mount_state.specs.AnswerOf.{IsReplyOrNoMemory, IsAnswerOrNoMemory};
ghost use Rattle.mount_records.specs.Refusals.{refusal_of};
ghost use Rattle.mount_records.specs.SameButRecords.{SameButRecords};
ghost use Rattle.mount_state.specs.SameBut.{IsSame};
ghost use Rattle.mount_state.specs.Represents.{Represents};

use meta_files::StoreFault;
use mount_model::{Bytes, Refusal, Reply};
use mount_state::MountState;
use std::alloc::Global;

/// Stores the bytes under the name, in place of the expected version (0 means none). Returns the version
/// that the record now has: one more.
///
/// Refused with TooBig for more than `MAX_RECORD_BYTES` bytes, then with Changed and the version if it
/// isn't the expected one. Then with NoSpace for a new record if there are `MAX_RECORDS`, or for a version
/// that is `LAST_VERSION`. After a refusal all records are as before.
pub fn meta_store(
    alloc: Global,
    state: &mut MountState,
    name: &Bytes,
    expected: u32,
    bytes: &Bytes,
) -> Reply
    ensures refused { IfSome (store_fault state.old.meta name.now expected bytes.now)
        (λ fault. result ≡ Reply.Refused (refusal_of fault)) }
    ensures accepted { IfNone (store_fault state.old.meta name.now expected bytes.now)
        (IsReplyOrNoMemory (Reply.Stored (version_of state.old.meta name.now + 1)) result) }
    ensures kept { is_refused result ≡ true → IsSame state.old state.new }
    ensures stored { is_refused result ≡ false → state.new.meta
        ≡ with_record state.old.meta name.now (version_of state.old.meta name.now + 1) bytes.now }
    ensures same { SameButRecords state.old state.new }
    ensures represents { (m : PlainMount) → Represents state.old m
        → IsAnswerOrNoMemory m (answer_to_meta_store m name.now expected bytes.now) result state.new }
{
    match state
        .meta
        .store(alloc, name.as_slice(), expected, bytes.as_slice())
    {
        Ok(version) => Reply::Stored(version),
        Err(fault) => Reply::Refused(refusal_of(fault)),
    }
}

// Returns the refusal for the fault.
fn refusal_of(fault: StoreFault) -> Refusal
    ensures { result ≡ refusal_of fault }
{
    match fault {
        StoreFault::TooBig => Refusal::TooBig,
        StoreFault::Changed { version } => Refusal::Changed { version },
        StoreFault::NoSpace => Refusal::NoSpace,
        StoreFault::NoMemory => Refusal::NoMemory,
    }
}
