//! Writing bytes into an open file.

ghost use Rattle.std.specs.Prelude.{◌≡◌, true, false};
ghost use Rattle.mount_model.specs.ClaimHistory.{is_refused};
ghost use Rattle.mount_model.specs.FileAnswers.{answer_to_write};
ghost use Rattle.mount_model.specs.PlainMount.{PlainMount};
ghost use Rattle.mount_model.specs.OpenHandles.{node_of};
ghost use Rattle.mount_state.specs.AnswerOf.{IsAnswerOrNoMemory};
ghost use Rattle.mount_state.specs.SameBut.{IsSame};
ghost use Rattle.mount_state.specs.Represents.{Represents};
ghost use Rattle.mount_files.specs.Writing.{IsWrittenTo, SameButDisk};

use crate::files::open_file;
use crate::keys::key_of;
use byte_words::slice_is_bytes;
use file_disk::{DiskFault, MAX_FILE_BYTES, write_file};
use item_list::Bytes;
use mount_model::{Refusal, Reply};
use mount_state::MountState;
use std::alloc::Global;

/// Writes the bytes from byte `offset` on into the file that the caller has open under the number. A gap
/// before them is zeros, encrypted as all else. Empty `bytes` change nothing. Only the blocks that the
/// bytes touch and those that are new are stored again.
///
/// Refused with BadHandle if the caller has no such handle, then with IsDir. Then TooBig if the bytes would
/// end after `MAX_FILE_BYTES`, then NoSpace if all files would have more than `MAX_BLOCKS` blocks.
/// NoMemory if there is none for new blocks. After a refusal the state is as before.
pub fn write(
    alloc: Global,
    state: &mut MountState,
    caller: u32,
    handle: u32,
    offset: u32,
    bytes: &Bytes,
) -> Reply
    ensures represents { (m : PlainMount) → Represents state.old m
        → IsAnswerOrNoMemory m (answer_to_write m caller handle offset bytes.now) result state.new }
    ensures refused { (m : PlainMount) → Represents state.old m
        → is_refused (answer_to_write m caller handle offset bytes.now).reply ≡ true
        → result ≡ (answer_to_write m caller handle offset bytes.now).reply }
    ensures kept { is_refused result ≡ true → IsSame state.old state.new }
    ensures written { is_refused result ≡ false → IsWrittenTo state.old state.new.disk
        (node_of state.old.handles.live caller handle) offset bytes.now }
    ensures same { SameButDisk state.old state.new }
{
    let file = match open_file(state, caller, handle) {
        Ok(file) => file,
        Err(refusal) => return Reply::Refused(refusal),
    };
    let piece = bytes.as_slice();
    if u64::from(offset) + piece.len() as u64 > MAX_FILE_BYTES as u64 {
        return Reply::Refused(Refusal::TooBig);
    }
    let mut key = match key_of(state, file) {
        Ok(key) => key,
        Err(refusal) => return Reply::Refused(refusal),
    };
    slice_is_bytes(piece);
    match write_file(&mut state.disk, alloc, file, &mut key, offset, piece) {
        Ok(()) => Reply::Done,
        Err(DiskFault::NoSpace) => Reply::Refused(Refusal::NoSpace),
        Err(DiskFault::NoMemory) => Reply::Refused(Refusal::NoMemory),
    }
}
