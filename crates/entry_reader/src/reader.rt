//! Reads a line of a log: each word is first taken for what an entry's line has at its position; the line
//! is an entry's exactly when the result, written, is the line again.

ghost use Rattle.std.specs.Prelude.{◌≡◌, ◌↔◌, ◌-◌, ◌<◌, ◌^◌, IfOk, IfSome, IsTrue, Some, length, take};
ghost use Rattle.mount_model.specs.Fits.{Fits};
ghost use Rattle.reply_text.specs.Log.{entry_text};
ghost use Rattle.entry_reader.specs.Forms.{Makes};
ghost use Rattle.entry_reader.specs.Guess.{entry_after_call, guess_of};
ghost use Rattle.entry_reader.specs.Reading.{IsEntry, IsEntryIfLine, ReadsBack, IsEntryOfLine};

use crate::calls::read_call;
use crate::fields::{number, place, take_word};
use crate::replies::read_reply;
use crate::types::{call_is_typed, reply_is_typed};
use call_history::Entry;
use mount_model::{Call, Reply};
use reply_text::{entry_in_range, entry_line};
use script_lang::Words;
use std::alloc::{AllocError, Global};

/// A line of a log: the entry at a place. Nonces, which no line contains, are 16 zeros. A line has the
/// lengths of a raw key, of written bytes and of the bytes of a stored record; here they are as many zeros.
#[derive(Drop)]
pub struct LogEntry {
    pub place: u64,
    pub entry: Entry<Call, Reply>,
}

/// Reads a line, with its line feed. Returns `None` exactly when it is not the line of an entry at a place
/// below 2^64 whose call a mount may be asked, with any reply. So each entry has only one line. What no
/// line contains of a call is filled with zeros. `AllocError` is possible for any line.
pub fn read_entry(alloc: Global, line: &[u8]) -> Result<Option<LogEntry>, AllocError>
    ensures exact { IfOk result (λ read. IsEntryOfLine line.now read) }
    ensures reads_back { IfOk result (λ read. ReadsBack line.now read) }
    ensures filled { IfOk result (λ read. IfSome read (λ entry. guess_of line.now ≡ Some entry)) }
{
    match guess(alloc, line)? {
        Some(read) => {
            let kept = keep_if_right(alloc, line, read)?;
            Ok(kept)
        }
        None => Ok(None),
    }
}

// Returns the entry if a mount may be asked its call and the line is its line.
fn keep_if_right(alloc: Global, line: &[u8], read: LogEntry) -> Result<Option<LogEntry>, AllocError>
    ensures { IfOk result (λ kept. IsEntryIfLine line.now read kept) }
{
    has_types(&read);
    match is_line_of(alloc, line, &read) {
        Ok(true) => Ok(Some(read)),
        Ok(false) => {
            leave(read);
            Ok(None)
        }
        Err(error) => {
            leave(read);
            Err(error)
        }
    }
}

// Returns the entry that the line may be of.
fn guess(alloc: Global, line: &[u8]) -> Result<Option<LogEntry>, AllocError>
    ensures { IfOk result (λ read. read ≡ guess_of line.now) }
{
    let mut words = Words::new(without_last(line));
    let place = place(&mut words);
    let who = number(&mut words);
    let uid = number(&mut words);
    match read_call(alloc, &mut words)? {
        Some(op) => entry_of(alloc, place, who, Call { uid, op }, &mut words),
        None => Ok(None),
    }
}

// Returns the entry of a call, with the reply from the words after it.
fn entry_of(
    alloc: Global,
    place: u64,
    who: u32,
    call: Call,
    words: &mut Words<'_>,
) -> Result<Option<LogEntry>, AllocError>
    ensures { Makes result (entry_after_call place who call.uid (Some call.op) words.old) words.new }
{
    let _equals = take_word(words);
    let reply = read_reply(alloc, words)?;
    Ok(Some(LogEntry {
        place,
        entry: Entry { who, call, reply },
    }))
}

// Returns the text without its last byte, if it has one.
fn without_last(text: &[u8]) -> &[u8]
    ensures { result.now ≡ take (length text.now - 1) text.now }
{
    if text.is_empty() {
        return text;
    }
    &text[..text.len() - 1]
}

// Returns whether a mount may be asked the call and the line is the entry's.
fn is_line_of(alloc: Global, line: &[u8], read: &LogEntry) -> Result<bool, AllocError>
    ensures { IfOk result (λ is. IsTrue is
        ↔ (Fits read.now.entry.call × (line.now ≡ entry_text read.now.place read.now.entry))) }
{
    if !read.entry.call.fits() {
        return Ok(false);
    }
    let written = entry_line(alloc, read.place, &read.entry)?;
    Ok(written.as_slice() == line)
}

// Drops an entry that is not the line's.
fn leave(_read: LogEntry) {}

// Ensures that the entry is one that a program can hold.
fn has_types(read: &LogEntry)
    ensures place { read.now.place < 2 ^ 64 }
    ensures entry { Fits read.now.entry.call → IsEntry read.now.entry }
{
    let _place = read.place;
    entry_in_range(&read.entry);
    call_is_typed(&read.entry.call.op);
    reply_is_typed(&read.entry.reply);
}
