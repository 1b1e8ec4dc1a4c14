//! What a text has at a place, compared with what a log has there. No number is read from the text.

ghost use Rattle.std.specs.Prelude.{◌≡◌, ◌++◌, codes, IfOk, IsTrue, ◌↔◌, MatchOption};
ghost use Rattle.log_check.specs.Certificate.{BeginsWith};
ghost use Rattle.reply_text.specs.Log.{entry_text};
ghost use Rattle.reply_text.specs.Logged.{line_head};

use call_history::Entry;
use item_list::Bytes;
use mount_model::{Call, Reply};
use reply_text::entry_line;
use std::alloc::{AllocError, Global};
use text_words::push_decimal;

// Returns the text after the entry's line, if the text begins with that line.
pub(crate) fn rest_after_entry_line<'t>(
    alloc: Global,
    place: u64,
    entry: &Entry<Call, Reply>,
    text: &'t [u8],
) -> Result<Option<&'t [u8]>, AllocError>
    ensures { IfOk result (λ behind. MatchOption behind
        (¬ BeginsWith text.now (entry_text place entry.now))
        (λ left. text.now ≡ entry_text place entry.now ++ left.now)) }
{
    let line = entry_line(alloc, place, entry)?;
    Ok(text.strip_prefix(line.as_slice()))
}

// Whether the text begins with the line of a caller's call for a user at the place.
pub(crate) fn is_line_of(
    alloc: Global,
    place: u64,
    caller: u32,
    uid: u32,
    text: &[u8],
) -> Result<bool, AllocError>
    ensures { IfOk result (λ it. IsTrue it ↔ BeginsWith text.now (line_head place caller uid ++ codes " ")) }
{
    let head = head_of(alloc, place, caller, uid)?;
    Ok(text.starts_with(head.as_slice()))
}

// Returns place, caller and user, with the space after them.
fn head_of(alloc: Global, place: u64, caller: u32, uid: u32) -> Result<Bytes, AllocError>
    ensures { IfOk result (λ head. head ≡ line_head place caller uid ++ codes " ") }
{
    let mut head = Vec::new(alloc);
    push_decimal(&mut head, place)?;
    head.push(b' ')?;
    push_decimal(&mut head, u64::from(caller))?;
    head.push(b' ')?;
    push_decimal(&mut head, u64::from(uid))?;
    head.push(b' ')?;
    Ok(Bytes::from_vec(head))
}
