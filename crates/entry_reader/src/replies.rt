//! The reply of a line.

ghost use Rattle.std.specs.Prelude.{◌≡◌};
ghost use Rattle.entry_reader.specs.Forms.{Makes, word};
ghost use Rattle.entry_reader.specs.Names as names;
ghost use Rattle.entry_reader.specs.LongReplies as long;
ghost use Rattle.entry_reader.specs.ReplyForms as forms;

use crate::fields::{bytes, flag, id, number, policy, take_word, unescape, unescape_word, users};
use crate::names::{ReplyName, kind_in, refusal_in, state_in};
use mount_model::{KeyState, NameList, NodeKind, Refusal, Reply};
use script_lang::Words;
use std::alloc::{AllocError, Global};

// Returns the reply that the words spell, or any reply if they spell none.
pub(crate) fn read_reply(alloc: Global, words: &mut Words<'_>) -> Result<Reply, AllocError>
    ensures { Makes result (forms.reply_form words.old) words.new }
{
    match ReplyName::read(take_word(words)) {
        Some(name) => read_named(alloc, name, words),
        None => Ok(Reply::Done),
    }
}

// Returns the reply that begins with this name, from the words after it.
fn read_named(alloc: Global, name: ReplyName, words: &mut Words<'_>) -> Result<Reply, AllocError>
    ensures { Makes result (forms.form_of_reply name words.old) words.new }
{
    match name {
        ReplyName::Added => Ok(Reply::Added(id(words))),
        ReplyName::Removed => Ok(removed(words)),
        ReplyName::Status => Ok(status(words)),
        ReplyName::Done => Ok(Reply::Done),
        ReplyName::Policy => Ok(Reply::PolicyIs(policy(words))),
        ReplyName::Names => listing(alloc, words),
        ReplyName::Stat => Ok(stat(words)),
        ReplyName::Handle => Ok(Reply::Opened(number(words))),
        ReplyName::Data => Ok(Reply::Content(bytes(alloc, words)?)),
        ReplyName::Target => Ok(Reply::Target(unescape_word(alloc, words)?)),
        ReplyName::Record => held(alloc, words),
        ReplyName::Stored => Ok(Reply::Stored(number(words))),
        ReplyName::Refused => Ok(refused(words)),
    }
}

fn removed(words: &mut Words<'_>) -> Reply
    ensures { long.removed_form words.old ≡ (result, words.new) }
{
    let others = flag(words);
    let busy = flag(words);
    Reply::Removed { others, busy }
}

fn status(words: &mut Words<'_>) -> Reply
    ensures { long.status words.old ≡ (result, words.new) }
{
    let state = state(words);
    let by_self = flag(words);
    let users = users(words);
    Reply::Status {
        state,
        by_self,
        users,
    }
}

fn listing(alloc: Global, words: &mut Words<'_>) -> Result<Reply, AllocError>
    ensures { Makes result (long.names words.old) words.new }
{
    let _count = take_word(words);
    let more = flag(words);
    let names = remaining_words(alloc, words)?;
    Ok(Reply::Names { names, more })
}

// Returns the bytes of each word that is left.
fn remaining_words(alloc: Global, words: &mut Words<'_>) -> Result<NameList, AllocError>
    ensures { Makes result (long.remaining_words words.old) words.new }
{
    let mut names = NameList::new(alloc);
    'words: while let Some(word) = words.next() {
        let name = unescape(alloc, word)?;
        names.push(name)?;
    }
    Ok(names)
}

fn stat(words: &mut Words<'_>) -> Reply
    ensures { long.stat words.old ≡ (result, words.new) }
{
    let kind = kind(words);
    let node = number(words);
    let size = number(words);
    let encrypted = flag(words);
    let keyed = flag(words);
    Reply::Stat {
        kind,
        node,
        size,
        encrypted,
        keyed,
    }
}

fn held(alloc: Global, words: &mut Words<'_>) -> Result<Reply, AllocError>
    ensures { Makes result (long.held_form words.old) words.new }
{
    let version = number(words);
    let bytes = bytes(alloc, words)?;
    Ok(Reply::Held { version, bytes })
}

fn refused(words: &mut Words<'_>) -> Reply
    ensures { forms.refused_form words.old ≡ (result, words.new) }
{
    let why = take_word(words);
    Reply::Refused(refusal_after_name(why, words))
}

// Returns the refusal of this word, with the version after it if it has one.
fn refusal_after_name(why: &[u8], words: &mut Words<'_>) -> Refusal
    ensures { forms.refusal_after_name why.now words.old ≡ (result, words.new) }
{
    if why == b"changed".as_slice() {
        let version = number(words);
        return Refusal::Changed { version };
    }
    refusal_in(why)
}

// Reads the state of a key.
fn state(words: &mut Words<'_>) -> KeyState
    ensures { word names.state_in words.old ≡ (result, words.new) }
{
    state_in(take_word(words))
}

// Reads what a node is.
fn kind(words: &mut Words<'_>) -> NodeKind
    ensures { word names.kind_in words.old ≡ (result, words.new) }
{
    kind_in(take_word(words))
}
