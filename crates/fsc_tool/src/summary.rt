//! The summary of a run: how many entries its history has, what became of them, and the digest of its log.

ghost use Rattle.std.specs.Prelude.{◌≡◌, ◌++◌, count_by, IfOk, OnOk};
ghost use Rattle.std.specs.List.{list_any};
ghost use Rattle.mount_model.specs.History.{is_out_of_memory};
ghost use Rattle.fsc_tool.specs.Summary as spec;

use call_history::Entry;
use item_list::Bytes;
use mount_model::{Refusal, Reply};
use reply_text::LoggedCall;
use sha2::{Digest, Sha256};
use std::alloc::{AllocError, Global};
use text_words::{push_decimal, push_lower_hex};

// Returns the summary of a history with this log.
#[tactic(auto, unfolding(crate::specs::Summary::summary_text))]
pub(crate) fn summary_text(
    alloc: Global,
    history: &[Entry<LoggedCall, Reply>],
    log: &[u8],
) -> Result<Bytes, AllocError>
    ensures { IfOk result (λ text. text ≡ spec.summary_text history.now log.now) }
{
    let mut text = Vec::new(alloc);
    put_count(&mut text, b"entries", history.len())?;
    put_count(&mut text, b"refused", refused(history))?;
    put_count(&mut text, b"busy", busy(history))?;
    text.extend_from_slice(b"sha256 ")?;
    push_lower_hex(&mut text, &Sha256::digest(log))?;
    text.push(b'\n')?;
    Ok(Bytes::from_vec(text))
}

// Appends a line with a count to the text.
fn put_count(text: &mut Vec<u8>, word: &[u8], count: usize) -> Result<(), AllocError>
    ensures { OnOk result (text.new.items ≡ text.old.items ++ spec.count_line word.now count) }
{
    text.extend_from_slice(word)?;
    text.push(b' ')?;
    push_decimal(text, count as u64)?;
    text.push(b'\n')?;
    Ok(())
}

// Returns how many calls were refused.
fn refused(history: &[Entry<LoggedCall, Reply>]) -> usize
    ensures { result ≡ count_by (λ e. spec.is_refusal e.reply) history.now }
{
    history
        .iter()
        .filter(|entry| is_refusal(&entry.reply))
        .count()
}

// Returns how many removals found a key in use.
fn busy(history: &[Entry<LoggedCall, Reply>]) -> usize
    ensures { result ≡ count_by (λ e. spec.is_busy_removal e.reply) history.now }
{
    history
        .iter()
        .filter(|entry| is_busy_removal(&entry.reply))
        .count()
}

#[tactic(auto, unfolding(crate::specs::Summary::is_refusal))]
fn is_refusal(reply: &Reply) -> bool
    ensures { result ≡ spec.is_refusal reply.now }
{
    matches!(reply, Reply::Refused(_))
}

#[tactic(auto, unfolding(crate::specs::Summary::is_busy_removal))]
fn is_busy_removal(reply: &Reply) -> bool
    ensures { result ≡ spec.is_busy_removal reply.now }
{
    match reply {
        Reply::Removed { busy, .. } => *busy,
        _ => false,
    }
}

// Returns whether a call was out of memory.
pub(crate) fn is_any_out_of_memory(entries: &[(u64, Entry<LoggedCall, Reply>)]) -> bool
    ensures { result ≡ list_any (λ placed. is_out_of_memory placed.1.reply) entries.now }
{
    entries.iter().any(|(_, entry)| matches!(entry.reply, Reply::Refused(Refusal::NoMemory)))
}
