//! The text of a log: a line for each call, with its caller and its reply.

ghost use Rattle.std.specs.Prelude.{◌≡◌, ◌++◌, codes, IfOk, OnOk};
ghost use Rattle.reply_text.specs.Log.{entry_text};
ghost use Rattle.reply_text.specs.Replies.{reply_text};
ghost use Rattle.reply_text.specs.Logged.{line_head, shown_text, log_of_history};

use crate::calls::put_call;
use crate::logged::LoggedCall;
use crate::replies::put_reply;
use call_history::Entry;
use item_list::Bytes;
use mount_model::{Call, Reply};
use std::alloc::{AllocError, Global};
use text_words::push_decimal;

/// Returns the line of an entry at a place of the history: `PLACE CALLER UID CALL = REPLY` and a line
/// feed.
#[tactic(auto, unfolding(crate::specs::Log::entry_text))]
pub fn entry_line(
    alloc: Global,
    place: u64,
    entry: &Entry<Call, Reply>,
) -> Result<Bytes, AllocError>
    ensures { IfOk result (λ text. text ≡ entry_text place entry.now) }
{
    let mut text = Vec::new(alloc);
    put_head(&mut text, place, entry.who, entry.call.uid)?;
    text.push(b' ')?;
    put_call(&mut text, &entry.call.op)?;
    put_end(&mut text, &entry.reply)?;
    Ok(Bytes::from_vec(text))
}

/// Returns the bytes of a history's log, given the shown form of each call: a line for each entry, in
/// order of place. Places count from 0.
pub fn write_log(alloc: Global, history: &[Entry<LoggedCall, Reply>]) -> Result<Bytes, AllocError>
    ensures { IfOk result (λ text. text ≡ log_of_history history.now) }
{
    let mut text = Vec::new(alloc);
    'entries: for (place, entry) in history.iter().enumerate() {
        put_shown(&mut text, place as u64, entry)?;
    }
    Ok(Bytes::from_vec(text))
}

// Appends the line of a shown entry at a place to the text.
#[tactic(auto, unfolding(crate::specs::Logged::shown_text))]
fn put_shown(
    text: &mut Vec<u8>,
    place: u64,
    entry: &Entry<LoggedCall, Reply>,
) -> Result<(), AllocError>
    ensures { OnOk result (text.new.items ≡ text.old.items ++ shown_text place entry.now) }
{
    put_head(text, place, entry.who, entry.call.uid)?;
    text.push(b' ')?;
    text.extend_from_slice(entry.call.words.as_slice())?;
    put_end(text, &entry.reply)?;
    Ok(())
}

// Appends place, caller and user of an entry to the text.
fn put_head(text: &mut Vec<u8>, place: u64, who: u32, uid: u32) -> Result<(), AllocError>
    ensures { OnOk result (text.new.items ≡ text.old.items ++ line_head place who uid) }
{
    push_decimal(text, place)?;
    text.push(b' ')?;
    push_decimal(text, u64::from(who))?;
    text.push(b' ')?;
    push_decimal(text, u64::from(uid))
}

// Appends the reply and the line's end to the text.
fn put_end(text: &mut Vec<u8>, reply: &Reply) -> Result<(), AllocError>
    ensures { OnOk result (text.new.items
        ≡ text.old.items ++ (codes " = " ++ (reply_text reply.now ++ codes "\n"))) }
{
    text.extend_from_slice(b" = ")?;
    put_reply(text, reply)?;
    text.push(b'\n')?;
    Ok(())
}
