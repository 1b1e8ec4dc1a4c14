//! The reply to a call that a text contains.

ghost use Rattle.std.specs.Prelude.{◌≡◌, ◌≢◌, ◌++◌, false, IfOk, IsTrue, MatchOption};
ghost use Rattle.call_history.specs.Entries.{entry};
ghost use Rattle.log_check.specs.Certificate.{BeginsWith};
ghost use Rattle.log_check.specs.Replies.{ReadsReplyLine, IsUnreplied};
ghost use Rattle.mount_model.specs.Fits.{Fits};
ghost use Rattle.mount_model.specs.Step.{takes_memory};
ghost use Rattle.mount_model.specs.declared.reply.Refusal.TheVariants.{NoMemory};
ghost use Rattle.mount_model.specs.declared.reply.Reply.TheVariants.{Refused};
ghost use Rattle.reply_text.specs.Log.{entry_text};

use crate::lines::rest_after_entry_line;
use crate::one_thread::OneThread;
use call_history::Entry;
use fsc_commands::wipe_call;
use mount_model::{Call, Op, Refusal, Reply};
use reply_text::entry_in_range;
use std::alloc::{AllocError, Global};

// Returns the reply to the caller's call, if the text begins with such a line, and the text after it. If
// the text has out of memory for a call that may have it, the mount is not called, unless the check is
// strict. If the mount is called and is out of memory, returns AllocError.
pub(crate) fn read_reply<'t, T: OneThread>(
    alloc: Global,
    strict: bool,
    place: u64,
    caller: u32,
    call: Call,
    text: &'t [u8],
    mount: &mut T,
) -> Result<Option<(Reply, &'t [u8])>, AllocError>
    requires fits { Fits call }
    ensures { IfOk result (λ it. MatchOption it
        (IsUnreplied strict T.reached_by mount.old text.now place caller call)
        (λ told. ReadsReplyLine strict T.reached_by mount.old mount.new text.now place caller call told.0 told.1.now)) }
{
    let mut entry = Entry {
        who: caller,
        call,
        reply: Reply::Refused(Refusal::NoMemory),
    };
    let behind = after_reply(alloc, strict, place, &mut entry, text, mount);
    let reply = reply_of(alloc, entry);
    match behind? {
        Some(behind) => Ok(Some((reply, behind))),
        None => Ok(None),
    }
}

// The same for the call of an entry that is passed with NoMemory: returns the text after the line, and puts
// its reply into the entry. The entry is borrowed, so that its call is dropped in one place.
fn after_reply<'t, T: OneThread>(
    alloc: Global,
    strict: bool,
    place: u64,
    asked: &mut Entry<Call, Reply>,
    text: &'t [u8],
    mount: &mut T,
) -> Result<Option<&'t [u8]>, AllocError>
    requires fits { Fits asked.old.call }
    requires out_of_memory_at { asked.old.reply ≡ Refused NoMemory }
    ensures { IfOk result (λ behind. MatchOption behind
        (IsUnreplied strict T.reached_by mount.old text.now place asked.old.who asked.old.call)
        (λ left. ReadsReplyLine strict T.reached_by mount.old mount.new text.now place asked.old.who asked.old.call
        asked.new.reply left.now)) }
{
    if let Some(behind) = after_no_memory(alloc, strict, place, asked, text)? {
        entry_in_range(asked);
        return Ok(Some(behind));
    }
    let reply = mount.answer(asked.who, &asked.call);
    put_reply(asked, reply);
    if reports_no_memory(&asked.reply) {
        return Err(AllocError);
    }
    match rest_after_entry_line(alloc, place, asked, text)? {
        Some(behind) => {
            entry_in_range(asked);
            Ok(Some(behind))
        }
        None => Ok(None),
    }
}

// Returns the text after the entry's line, if the text begins with that line, its call may be out of
// memory, and the check isn't strict.
fn after_no_memory<'t>(
    alloc: Global,
    strict: bool,
    place: u64,
    wanting: &Entry<Call, Reply>,
    text: &'t [u8],
) -> Result<Option<&'t [u8]>, AllocError>
    ensures { IfOk result (λ behind. MatchOption behind
        (strict ≡ false → IsTrue (takes_memory wanting.now.call.op)
        → ¬ BeginsWith text.now (entry_text place wanting.now))
        (λ left. (strict ≡ false) × IsTrue (takes_memory wanting.now.call.op)
        × (text.now ≡ entry_text place wanting.now ++ left.now))) }
{
    if !strict && takes_memory(&wanting.call.op) {
        rest_after_entry_line(alloc, place, wanting, text)
    } else {
        Ok(None)
    }
}

// Whether a mount may be out of memory for it.
fn takes_memory(op: &Op) -> bool
    ensures { result ≡ takes_memory op.now }
{
    match op {
        Op::RemoveKey { .. }
        | Op::RemoveKeyAll { .. }
        | Op::KeyStatus { .. }
        | Op::Close { .. }
        | Op::DropCaches => false,
        Op::AddKey { .. }
        | Op::SetPolicy { .. }
        | Op::GetPolicy { .. }
        | Op::Mkdir { .. }
        | Op::Create { .. }
        | Op::Symlink { .. }
        | Op::ReadLink { .. }
        | Op::Unlink { .. }
        | Op::Rmdir { .. }
        | Op::Rename { .. }
        | Op::List { .. }
        | Op::Stat { .. }
        | Op::OpenNode { .. }
        | Op::Read { .. }
        | Op::Write { .. }
        | Op::MetaLoad { .. }
        | Op::MetaStore { .. } => true,
    }
}

// Whether the reply is out of memory.
pub(crate) fn reports_no_memory(reply: &Reply) -> bool
    ensures { result ≡ false → reply.now ≢ Reply.Refused Refusal.NoMemory }
{
    matches!(reply, Reply::Refused(Refusal::NoMemory))
}

// The entry with this reply in place of its own.
fn put_reply(asked: &mut Entry<Call, Reply>, reply: Reply)
    ensures { asked.new ≡ entry asked.old.who asked.old.call reply }
{
    asked.reply = reply;
}

// Returns the entry's reply. Wipes what no log shows of its call, and drops it.
fn reply_of(alloc: Global, answered: Entry<Call, Reply>) -> Reply
    ensures { result ≡ answered.reply }
{
    let mut call = answered.call;
    wipe_call(alloc, &mut call);
    answered.reply
}
