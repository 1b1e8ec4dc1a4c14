//! Reading a part of an open file: its stored blocks are copied in the turn, and decrypted outside.

ghost use Rattle.std.specs.Prelude.{◌≡◌, ◌≤◌, Some};
ghost use Rattle.mount_model.specs.PlainMount.{PlainMount};
ghost use Rattle.mount_model.specs.OpenHandles.{node_of};
ghost use Rattle.mount_model.specs.FileAnswers.{answer_to_read};
ghost use Rattle.mount_state.specs.AnswerOf.{IsReplyOrNoMemory, IsExpectedRefusal};
ghost use Rattle.mount_state.specs.Represents.{Represents};
ghost use Rattle.mount_files.specs.Pending.{reply_of, IsPending, IsPendingOn, IsReadAs};

use crate::files::open_file;
use crate::keys::key_of;
use crate::pending::Pending;
use file_disk::{MAX_READ_BYTES, PendingRead, begin_read, finish_read};
use item_list::Bytes;
use mount_model::{Refusal, Reply};
use mount_state::MountState;
use std::alloc::Global;

/// Begins to read at most `len` bytes from byte `offset` on of the file that the caller has open under the
/// number. Copies the stored blocks of that part, with the key that decrypts them. Decrypts nothing.
///
/// The reply is ready if the part is empty or the read is refused. Refused with BadHandle if the caller has
/// no such handle, then with IsDir, then with TooBig for more than `MAX_READ_BYTES`; NoMemory if there is
/// none for the copy.
pub fn read_begin(
    alloc: Global,
    state: &MountState,
    caller: u32,
    handle: u32,
    offset: u32,
    len: u32,
) -> Pending
    ensures represents { (m : PlainMount) → Represents state.now m
        → IsReplyOrNoMemory (answer_to_read m caller handle offset len).reply (reply_of result) }
    ensures due { (m : PlainMount) → Represents state.now m
        → IsExpectedRefusal (answer_to_read m caller handle offset len) (reply_of result) }
    ensures lent { IsPending state.now (node_of state.now.handles.live caller handle) offset len result }
{
    match open_file(state, caller, handle) {
        Ok(_) if len as usize > MAX_READ_BYTES => Pending::Ready(Reply::Refused(Refusal::TooBig)),
        Ok(file) => lend(alloc, state, file, offset, len),
        Err(refusal) => Pending::Ready(Reply::Refused(refusal)),
    }
}

// Copies the stored blocks of the part of the file.
fn lend(alloc: Global, state: &MountState, file: u32, offset: u32, len: u32) -> Pending
    requires few { len ≤ MAX_READ_BYTES }
    ensures read { IsReadAs state.now file offset len (reply_of result) }
    ensures lent { IsPendingOn state.now file offset len result }
{
    let mut key = match key_of(state, file) {
        Ok(key) => key,
        Err(refusal) => return Pending::Ready(Reply::Refused(refusal)),
    };
    match begin_read(&state.disk, alloc, file, &mut key, offset, len) {
        Ok(Some(read)) => Pending::Read(read),
        Ok(None) => Pending::Ready(Reply::Content(Bytes::new(alloc))),
        Err(_) => Pending::Ready(Reply::Refused(Refusal::NoMemory)),
    }
}

/// Decrypts the pending read in place, cuts it to the content, and wipes the key. Takes no memory.
pub fn read_finish(lent: PendingRead) -> Reply
    ensures { result ≡ reply_of (Pending.Read lent) }
{
    Reply::Content(Bytes::from_vec(finish_read(lent)))
}

impl Pending {
    /// Returns the reply: the ready one, or the decrypted content of the pending read. Takes no memory.
    pub fn finish(self) -> Reply
        ensures { result ≡ reply_of self }
    {
        match self {
            Pending::Ready(reply) => reply,
            Pending::Read(lent) => read_finish(lent),
        }
    }
}

/// Reads at most `len` bytes from byte `offset` on of the file that the caller has open under the number,
/// up to the end of the file. Refused as `read_begin` is.
pub fn read(
    alloc: Global,
    state: &MountState,
    caller: u32,
    handle: u32,
    offset: u32,
    len: u32,
) -> Reply
    ensures represents { (m : PlainMount) → Represents state.now m
        → IsReplyOrNoMemory (answer_to_read m caller handle offset len).reply result }
    ensures due { (m : PlainMount) → Represents state.now m
        → IsExpectedRefusal (answer_to_read m caller handle offset len) result }
{
    read_begin(alloc, state, caller, handle, offset, len).finish()
}
