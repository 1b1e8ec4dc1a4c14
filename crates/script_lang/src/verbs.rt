//! The table of commands: the words after each name, taken in order.

ghost use Rattle.std.specs.Prelude.{◌≡◌, IfOk};
ghost use Rattle.script_lang.specs.Forms.{Takes, if_no_word_left};
ghost use Rattle.script_lang.specs.Commands.{form_of, verb_of, command_named};
ghost use Rattle.script_lang.specs.NameGroups.{TakesKey, TakesPath, TakesLabel};
ghost use Rattle.script_lang.specs.NameGroups.{TakesCallWords, TakesSessionWords};

use crate::file_forms::{
    fill, list, meta_put_form, read, rename, set_policy, set_policy_bytes, symlink, write,
};
use crate::names::CommandName;
use crate::session_forms::{
    encrypt, policy_add, policy_drop, policy_new, protector, protector_change, unlock,
};
use crate::verb::Verb;
use crate::words::{Unread, Words};
use std::alloc::{AllocError, Global};

// The command of a name and of the words after it, all of which must be taken.
pub(crate) fn read_verb(
    alloc: Global,
    first: &[u8],
    words: &mut Words<'_>,
) -> Result<Option<Verb>, AllocError>
    ensures { IfOk result (λ verb. verb ≡ verb_of first.now words.old) }
{
    match CommandName::read(first) {
        Some(name) => read_command(alloc, name, words),
        None => Ok(None),
    }
}

// The command of this name and of the words after it.
#[tactic(auto, unfolding(crate::specs::Commands::command_named))]
fn read_command(
    alloc: Global,
    name: CommandName,
    words: &mut Words<'_>,
) -> Result<Option<Verb>, AllocError>
    ensures { IfOk result (λ verb. verb ≡ command_named name words.old) }
{
    match take_form(alloc, name, words) {
        Ok(verb) => Ok(if_none_left(verb, words)),
        Err(Unread::OutsideGrammar) => Ok(None),
        Err(Unread::NoMemory) => Err(AllocError),
    }
}

// The command, if it has taken all words.
fn if_none_left(verb: Verb, words: &Words<'_>) -> Option<Verb>
    ensures { result ≡ if_no_word_left (verb, words.now) }
{
    if words.is_empty() { Some(verb) } else { None }
}

// The verb of the words that a command takes.
fn take_form(alloc: Global, name: CommandName, words: &mut Words<'_>) -> Result<Verb, Unread>
    ensures { Takes result (form_of name words.old) words.new }
{
    match name {
        CommandName::AddKey => Ok(Verb::AddKey(words.added_bytes(alloc)?)),
        CommandName::RemoveKey | CommandName::RemoveKeyAll | CommandName::KeyStatus => {
            take_key(name, words)
        }
        CommandName::GetPolicy
        | CommandName::Mkdir
        | CommandName::Create
        | CommandName::ReadLink
        | CommandName::Unlink
        | CommandName::Rmdir
        | CommandName::Stat
        | CommandName::Open => take_path(alloc, name, words),
        CommandName::Close => Ok(Verb::Close(words.number()?)),
        CommandName::DropCaches => Ok(Verb::DropCaches),
        CommandName::Pause => Ok(Verb::Pause),
        CommandName::MetaGet => Ok(Verb::MetaGet(words.record()?)),
        CommandName::ProtectorLink
        | CommandName::Lock
        | CommandName::Status
        | CommandName::Migrate => take_label(name, words),
        CommandName::SetPolicy
        | CommandName::SetPolicyBytes
        | CommandName::Symlink
        | CommandName::Rename
        | CommandName::List
        | CommandName::Read
        | CommandName::Write
        | CommandName::Fill
        | CommandName::MetaPut => take_call_words(alloc, name, words),
        CommandName::Protector
        | CommandName::ProtectorChange
        | CommandName::PolicyNew
        | CommandName::PolicyAdd
        | CommandName::PolicyDrop
        | CommandName::Unlock
        | CommandName::Encrypt => take_session_words(alloc, name, words),
    }
}

// A key, and nothing else.
fn take_key(name: CommandName, words: &mut Words<'_>) -> Result<Verb, Unread>
    requires { TakesKey name }
    ensures { Takes result (form_of name words.old) words.new }
{
    let key = words.key()?;
    match name {
        CommandName::RemoveKey => Ok(Verb::RemoveKey(key)),
        CommandName::RemoveKeyAll => Ok(Verb::RemoveKeyAll(key)),
        CommandName::KeyStatus => Ok(Verb::KeyStatus(key)),
        _ => unreachable!(),
    }
}

// A path, and nothing else.
fn take_path(alloc: Global, name: CommandName, words: &mut Words<'_>) -> Result<Verb, Unread>
    requires { TakesPath name }
    ensures { Takes result (form_of name words.old) words.new }
{
    let path = words.path(alloc)?;
    match name {
        CommandName::GetPolicy => Ok(Verb::GetPolicy(path)),
        CommandName::Mkdir => Ok(Verb::Mkdir(path)),
        CommandName::Create => Ok(Verb::Create(path)),
        CommandName::ReadLink => Ok(Verb::ReadLink(path)),
        CommandName::Unlink => Ok(Verb::Unlink(path)),
        CommandName::Rmdir => Ok(Verb::Rmdir(path)),
        CommandName::Stat => Ok(Verb::Stat(path)),
        CommandName::Open => Ok(Verb::Open(path)),
        _ => unreachable!(),
    }
}

// A label, and nothing else.
fn take_label(name: CommandName, words: &mut Words<'_>) -> Result<Verb, Unread>
    requires { TakesLabel name }
    ensures { Takes result (form_of name words.old) words.new }
{
    let label = words.label()?;
    match name {
        CommandName::ProtectorLink => Ok(Verb::ProtectorLink(label)),
        CommandName::Lock => Ok(Verb::Lock(label)),
        CommandName::Status => Ok(Verb::Status(label)),
        CommandName::Migrate => Ok(Verb::Migrate(label)),
        _ => unreachable!(),
    }
}

// Several words, which are one call.
fn take_call_words(alloc: Global, name: CommandName, words: &mut Words<'_>) -> Result<Verb, Unread>
    requires { TakesCallWords name }
    ensures { Takes result (form_of name words.old) words.new }
{
    match name {
        CommandName::SetPolicy => set_policy(alloc, words),
        CommandName::SetPolicyBytes => set_policy_bytes(alloc, words),
        CommandName::Symlink => symlink(alloc, words),
        CommandName::Rename => rename(alloc, words),
        CommandName::List => list(alloc, words),
        CommandName::Read => read(words),
        CommandName::Write => write(alloc, words),
        CommandName::Fill => fill(words),
        CommandName::MetaPut => meta_put_form(alloc, words),
        _ => unreachable!(),
    }
}

// Several words, which are the work of a session.
fn take_session_words(
    alloc: Global,
    name: CommandName,
    words: &mut Words<'_>,
) -> Result<Verb, Unread>
    requires { TakesSessionWords name }
    ensures { Takes result (form_of name words.old) words.new }
{
    match name {
        CommandName::Protector => protector(alloc, words),
        CommandName::ProtectorChange => protector_change(alloc, words),
        CommandName::PolicyNew => policy_new(alloc, words),
        CommandName::PolicyAdd => policy_add(alloc, words),
        CommandName::PolicyDrop => policy_drop(words),
        CommandName::Unlock => unlock(alloc, words),
        CommandName::Encrypt => encrypt(alloc, words),
        _ => unreachable!(),
    }
}
