//! The ranges of a program's values: bytes below 256, and numbers within their types. The functions here
//! do nothing; the contract of each says that its argument is in range.

ghost use Rattle.std.specs.Prelude.{◌<◌, ◌^◌, length, All};
ghost use Rattle.hex.specs.Hex.{IsBytes};
ghost use Rattle.reply_text.specs.CallRange.{CallIsInRange};
ghost use Rattle.reply_text.specs.Ranges.{EntryIsInRange, RefusalIsInRange, ReplyIsInRange};

use byte_words::slice_is_bytes;
use call_history::Entry;
use item_list::Bytes;
use mount_model::{Call, Op, Refusal, Reply};

/// Each entry of a history is in range.
pub fn entry_in_range(entry: &Entry<Call, Reply>)
    ensures { EntryIsInRange entry.now }
{
    let _who = entry.who;
    call_in_range(&entry.call);
    reply_in_range(&entry.reply);
}

/// Each call is in range: its user, and the part of it that its text shows.
pub fn call_in_range(call: &Call)
    ensures uid { call.now.uid < 2 ^ 32 }
    ensures asked { CallIsInRange call.now.op }
{
    let _uid = call.uid;
    op_in_range(&call.op);
}

/// Each reply is in range.
pub fn reply_in_range(reply: &Reply)
    ensures { ReplyIsInRange reply.now }
{
    match reply {
        Reply::Added(id) => slice_is_bytes(&id.0),
        Reply::PolicyIs(policy) => slice_is_bytes(policy),
        Reply::Names { names, .. } => names_in_range(names.as_slice()),
        Reply::Stat { node, size, .. } => {
            let _node = *node;
            let _size = *size;
        }
        Reply::Content(bytes) | Reply::Target(bytes) => slice_is_bytes(bytes.as_slice()),
        Reply::Held { version, bytes } => {
            let _version = *version;
            slice_is_bytes(bytes.as_slice());
        }
        Reply::Status { users: number, .. } | Reply::Opened(number) | Reply::Stored(number) => {
            let _number = *number;
        }
        Reply::Refused(refusal) => refusal_in_range(*refusal),
        Reply::Removed { .. } | Reply::Done => {}
    }
}

// The operation is in range.
fn op_in_range(op: &Op)
    ensures { CallIsInRange op.now }
{
    match op {
        Op::AddKey { raw } => {
            let _count = raw.len();
        }
        Op::RemoveKey { id } | Op::RemoveKeyAll { id } | Op::KeyStatus { id } => slice_is_bytes(
            &id.0,
        ),
        Op::SetPolicy { policy, .. } => slice_is_bytes(policy),
        Op::List { start: number, .. } | Op::Close { handle: number } => {
            let _number = *number;
        }
        Op::Read {
            handle,
            offset,
            len,
        } => {
            let _numbers = (*handle, *offset, *len);
        }
        Op::Write {
            handle,
            offset,
            bytes,
        } => {
            let _numbers = (*handle, *offset, bytes.len());
        }
        Op::MetaStore {
            expected,
            bytes,
            ..
        } => {
            let _numbers = (*expected, bytes.len());
        }
        Op::GetPolicy { .. }
        | Op::Mkdir { .. }
        | Op::Create { .. }
        | Op::Symlink { .. }
        | Op::ReadLink { .. }
        | Op::Unlink { .. }
        | Op::Rmdir { .. }
        | Op::Rename { .. }
        | Op::Stat { .. }
        | Op::OpenNode { .. }
        | Op::DropCaches
        | Op::MetaLoad { .. } => {}
    }
}

fn refusal_in_range(refusal: Refusal)
    ensures { RefusalIsInRange refusal }
{
    if let Refusal::Changed { version } = refusal {
        let _version = version;
    }
}

// There are fewer than 2^64 names, and each is of bytes.
fn names_in_range(names: &[Bytes])
    ensures few { length names.now < 2 ^ 64 }
    ensures bytes { All IsBytes names.now }
{
    'names: for number in 0..names.len() {
        slice_is_bytes(names[number].as_slice());
    }
}
