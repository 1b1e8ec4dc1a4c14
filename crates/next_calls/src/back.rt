//! Removing the entries that a run appended, and taking their replies back.

ghost use Rattle.std.specs.Prelude.{◌≡◌, ◌+◌, ◌≤◌, length, take, drop, reverse, IfOk, OnOk};
ghost use Rattle.next_calls.specs.NextCalls.{logged_replies};

use call_history::Entry;
use fsc_commands::EntryList;
use mount_model::Reply;
use reply_text::LoggedCall;
use std::alloc::{AllocError, Global};

// Removes the entries from the index `kept` on, and returns the replies of the first `count` of them, the
// first one last.
#[tactic(auto, using(crate::proofs::BackLemmas::shrunk_none, crate::proofs::BackLemmas::shrunk_more, crate::proofs::BackLemmas::taken_none, crate::proofs::BackLemmas::taken_kept, crate::proofs::BackLemmas::taken_replies))]
pub(crate) fn take_back(
    alloc: Global,
    entries: &mut EntryList,
    kept: usize,
    count: usize,
) -> Result<Vec<Reply>, AllocError>
    requires { kept + count ≤ length entries.old }
    ensures kept { OnOk result (entries.new ≡ take kept entries.old) }
    ensures replies { IfOk result (λ replies. reverse replies.items
        ≡ take count (logged_replies (drop kept entries.old))) }
{
    'further: while entries.len() > kept + count {
        drop_popped(entries.pop());
    }
    let mut replies = Vec::new(alloc);
    'listed: while entries.len() > kept {
        if let Some((_, entry)) = entries.pop() {
            replies.push(reply_of(entry))?;
        }
    }
    Ok(replies)
}

// In a function of its own: in a function with branches, each branch would drop each variant.
fn drop_popped(_placed: Option<(u64, Entry<LoggedCall, Reply>)>) {}

fn reply_of(entry: Entry<LoggedCall, Reply>) -> Reply
    ensures { result ≡ entry.reply }
{
    entry.reply
}
