//! What each entry of a program holds, besides that it is in range: identifiers have 16 bytes, policies 24,
//! and names of records are of bytes. The functions here do nothing; each has its fact as its contract.

ghost use Rattle.std.specs.Prelude.{◌≡◌, length};
ghost use Rattle.entry_reader.specs.Typed.{CallIsTyped, ReplyIsTyped};

use byte_words::slice_is_bytes;
use mount_model::{KeyId, Op, Reply};

pub(crate) fn call_is_typed(op: &Op)
    ensures { CallIsTyped op.now }
{
    match op {
        Op::RemoveKey { id } | Op::RemoveKeyAll { id } | Op::KeyStatus { id } => id_has_size(id),
        Op::SetPolicy { policy, .. } => policy_has_size(policy),
        Op::MetaLoad { name } | Op::MetaStore { name, .. } => slice_is_bytes(name.as_slice()),
        Op::AddKey { .. }
        | Op::GetPolicy { .. }
        | Op::Mkdir { .. }
        | Op::Create { .. }
        | Op::Symlink { .. }
        | Op::ReadLink { .. }
        | Op::Unlink { .. }
        | Op::Rmdir { .. }
        | Op::Rename { .. }
        | Op::List { .. }
        | Op::Stat { .. }
        | Op::OpenNode { .. }
        | Op::Read { .. }
        | Op::Write { .. }
        | Op::Close { .. }
        | Op::DropCaches => {}
    }
}

pub(crate) fn reply_is_typed(reply: &Reply)
    ensures { ReplyIsTyped reply.now }
{
    match reply {
        Reply::Added(id) => id_has_size(id),
        Reply::PolicyIs(policy) => policy_has_size(policy),
        Reply::Removed { .. }
        | Reply::Status { .. }
        | Reply::Done
        | Reply::Names { .. }
        | Reply::Stat { .. }
        | Reply::Opened(_)
        | Reply::Content(_)
        | Reply::Target(_)
        | Reply::Held { .. }
        | Reply::Stored(_)
        | Reply::Refused(_) => {}
    }
}

fn id_has_size(id: &KeyId)
    ensures { length id.now.0 ≡ 16 }
{
    let _bytes = id.0;
}

fn policy_has_size(policy: &[u8; 24])
    ensures { length policy.now ≡ 24 }
{
    let _bytes = *policy;
}
