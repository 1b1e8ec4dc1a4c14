//! The call of a line.

ghost use Rattle.std.specs.Prelude.{◌≡◌};
ghost use Rattle.entry_reader.specs.Forms.{Makes};
ghost use Rattle.entry_reader.specs.CallForms as forms;
ghost use Rattle.entry_reader.specs.NamedCalls as named;
ghost use Rattle.entry_reader.specs.DataForms as on_data;
ghost use Rattle.entry_reader.specs.PathForms as on_paths;

use crate::fields::{id, number, path, policy, take_word, unescape_word, zeros};
use mount_model::Op;
use mount_model::limits::{MAX_CARRIED_BYTES, MAX_RAW_BYTES, MAX_WRITE_BYTES};
use script_lang::{CommandName, Words};
use std::alloc::{AllocError, Global};

// In place of a nonce, which no line contains.
const NO_NONCE: [u8; 16] = [0; 16];

// Returns the call that the words spell, with zeros for what no line contains, or `None` if no call has the
// name.
pub(crate) fn read_call(alloc: Global, words: &mut Words<'_>) -> Result<Option<Op>, AllocError>
    ensures { Makes result (forms.call_form words.old) words.new }
{
    match CommandName::read(take_word(words)) {
        Some(name) => read_named(alloc, name, words),
        None => Ok(None),
    }
}

// Returns the call of this name, from the words after it.
fn read_named(
    alloc: Global,
    name: CommandName,
    words: &mut Words<'_>,
) -> Result<Option<Op>, AllocError>
    ensures { Makes result (named.form_of_call name words.old) words.new }
{
    match name {
        CommandName::AddKey => {
            zeros(alloc, words, MAX_RAW_BYTES).map(|raw| Some(Op::AddKey { raw }))
        }
        CommandName::RemoveKey => Ok(Some(Op::RemoveKey { id: id(words) })),
        CommandName::RemoveKeyAll => Ok(Some(Op::RemoveKeyAll { id: id(words) })),
        CommandName::KeyStatus => Ok(Some(Op::KeyStatus { id: id(words) })),
        CommandName::SetPolicy => Ok(Some(set_policy(alloc, words)?)),
        CommandName::GetPolicy => path(alloc, words).map(|path| Some(Op::GetPolicy { path })),
        CommandName::Mkdir => Ok(Some(mkdir(alloc, words)?)),
        CommandName::Create => Ok(Some(create(alloc, words)?)),
        CommandName::Symlink => Ok(Some(symlink(alloc, words)?)),
        CommandName::ReadLink => path(alloc, words).map(|path| Some(Op::ReadLink { path })),
        CommandName::Unlink => path(alloc, words).map(|path| Some(Op::Unlink { path })),
        CommandName::Rmdir => path(alloc, words).map(|path| Some(Op::Rmdir { path })),
        CommandName::Rename => Ok(Some(rename(alloc, words)?)),
        CommandName::List => Ok(Some(list(alloc, words)?)),
        CommandName::Stat => path(alloc, words).map(|path| Some(Op::Stat { path })),
        CommandName::Open => path(alloc, words).map(|path| Some(Op::OpenNode { path })),
        CommandName::Close => Ok(Some(close(words))),
        CommandName::Read => Ok(Some(read(words))),
        CommandName::Write => Ok(Some(write(alloc, words)?)),
        CommandName::DropCaches => Ok(Some(Op::DropCaches)),
        CommandName::MetaGet => unescape_word(alloc, words).map(|name| Some(Op::MetaLoad { name })),
        CommandName::MetaPut => Ok(Some(meta_put_form(alloc, words)?)),
        CommandName::SetPolicyBytes
        | CommandName::Fill
        | CommandName::Protector
        | CommandName::ProtectorChange
        | CommandName::ProtectorLink
        | CommandName::PolicyNew
        | CommandName::PolicyAdd
        | CommandName::PolicyDrop
        | CommandName::Unlock
        | CommandName::Lock
        | CommandName::Status
        | CommandName::Encrypt
        | CommandName::Migrate
        | CommandName::Pause => Ok(None),
    }
}

fn set_policy(alloc: Global, words: &mut Words<'_>) -> Result<Op, AllocError>
    ensures { Makes result (on_paths.set_policy words.old) words.new }
{
    let path = path(alloc, words)?;
    let policy = policy(words);
    Ok(Op::SetPolicy {
        path,
        policy,
        nonce: NO_NONCE,
    })
}

fn mkdir(alloc: Global, words: &mut Words<'_>) -> Result<Op, AllocError>
    ensures { Makes result (on_paths.mkdir words.old) words.new }
{
    let path = path(alloc, words)?;
    let nonce = NO_NONCE;
    Ok(Op::Mkdir { path, nonce })
}

fn create(alloc: Global, words: &mut Words<'_>) -> Result<Op, AllocError>
    ensures { Makes result (on_paths.create words.old) words.new }
{
    let path = path(alloc, words)?;
    let nonce = NO_NONCE;
    Ok(Op::Create { path, nonce })
}

fn symlink(alloc: Global, words: &mut Words<'_>) -> Result<Op, AllocError>
    ensures { Makes result (on_paths.symlink words.old) words.new }
{
    let path = path(alloc, words)?;
    let target = unescape_word(alloc, words)?;
    Ok(Op::Symlink {
        path,
        target,
        nonce: NO_NONCE,
    })
}

fn rename(alloc: Global, words: &mut Words<'_>) -> Result<Op, AllocError>
    ensures { Makes result (on_paths.rename words.old) words.new }
{
    let old_path = path(alloc, words)?;
    let new_path = path(alloc, words)?;
    Ok(Op::Rename { old_path, new_path })
}

fn list(alloc: Global, words: &mut Words<'_>) -> Result<Op, AllocError>
    ensures { Makes result (on_paths.list words.old) words.new }
{
    let path = path(alloc, words)?;
    let start = number(words);
    Ok(Op::List { path, start })
}

fn close(words: &mut Words<'_>) -> Op
    ensures { on_data.close words.old ≡ (result, words.new) }
{
    let handle = number(words);
    Op::Close { handle }
}

fn read(words: &mut Words<'_>) -> Op
    ensures { on_data.read_call_form words.old ≡ (result, words.new) }
{
    let handle = number(words);
    let offset = number(words);
    let len = number(words);
    Op::Read {
        handle,
        offset,
        len,
    }
}

fn write(alloc: Global, words: &mut Words<'_>) -> Result<Op, AllocError>
    ensures { Makes result (on_data.write words.old) words.new }
{
    let handle = number(words);
    let offset = number(words);
    let bytes = zeros(alloc, words, MAX_WRITE_BYTES)?;
    Ok(Op::Write {
        handle,
        offset,
        bytes,
    })
}

fn meta_put_form(alloc: Global, words: &mut Words<'_>) -> Result<Op, AllocError>
    ensures { Makes result (on_data.meta_put_form words.old) words.new }
{
    let name = unescape_word(alloc, words)?;
    let expected = number(words);
    let bytes = zeros(alloc, words, MAX_CARRIED_BYTES)?;
    Ok(Op::MetaStore {
        name,
        expected,
        bytes,
    })
}
