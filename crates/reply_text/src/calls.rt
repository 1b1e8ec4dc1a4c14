//! The text of a call.

ghost use Rattle.std.specs.Prelude.{◌≡◌, ◌++◌, List, OnOk, codes};
ghost use Rattle.hex.specs.Hex.{encode_lower};
ghost use Rattle.text_words.specs.Numbers.{decimal_of};
ghost use Rattle.script_words.specs.Word.{word_text};
ghost use Rattle.reply_text.specs.Names.{path_text};
ghost use Rattle.reply_text.specs.Calls.{call_text, store_text};

use crate::fields::{put_digits, put_number, put_span};
use crate::names::{put_path, put_record, put_word};
use mount_model::{Op, Path};
use std::alloc::AllocError;

// Appends a call to the text.
pub(crate) fn put_call(text: &mut Vec<u8>, op: &Op) -> Result<(), AllocError>
    ensures { OnOk result (text.new.items ≡ text.old.items ++ call_text op.now) }
{
    match op {
        Op::AddKey { raw } => put_number(text, b"add-key ", raw.len() as u64),
        Op::RemoveKey { id } => put_digits(text, b"remove-key ", &id.0),
        Op::RemoveKeyAll { id } => put_digits(text, b"remove-key-all ", &id.0),
        Op::KeyStatus { id } => put_digits(text, b"key-status ", &id.0),
        Op::SetPolicy { path, policy, .. } => put_set_policy(text, path, policy),
        Op::GetPolicy { path } => put_path(text, b"get-policy ", path),
        Op::Mkdir { path, .. } => put_path(text, b"mkdir ", path),
        Op::Create { path, .. } => put_path(text, b"create ", path),
        Op::Symlink { path, target, .. } => put_symlink(text, path, target.as_slice()),
        Op::ReadLink { path } => put_path(text, b"readlink ", path),
        Op::Unlink { path } => put_path(text, b"unlink ", path),
        Op::Rmdir { path } => put_path(text, b"rmdir ", path),
        Op::Rename { old_path, new_path } => put_rename(text, old_path, new_path),
        Op::List { path, start } => put_list(text, path, *start),
        Op::Stat { path } => put_path(text, b"stat ", path),
        Op::OpenNode { path } => put_path(text, b"open ", path),
        Op::Read {
            handle,
            offset,
            len,
        } => put_span(text, b"read ", *handle, *offset, u64::from(*len)),
        Op::Write {
            handle,
            offset,
            bytes,
        } => put_span(text, b"write ", *handle, *offset, bytes.len() as u64),
        Op::Close { handle } => put_number(text, b"close ", u64::from(*handle)),
        Op::DropCaches => text.extend_from_slice(b"drop-caches"),
        Op::MetaLoad { name } => put_record(text, b"meta-get ", name.as_slice()),
        Op::MetaStore {
            name,
            expected,
            bytes,
        } => put_store(text, name.as_slice(), *expected, bytes.len() as u64),
    }
}

// Appends a directory and its policy to the text.
fn put_set_policy(text: &mut Vec<u8>, path: &Path, policy: &[u8]) -> Result<(), AllocError>
    ensures { OnOk result (text.new.items ≡ text.old.items
        ++ (codes "set-policy " ++ (path_text path.now ++ (codes " " ++ encode_lower policy.now)))) }
{
    put_path(text, b"set-policy ", path)?;
    put_digits(text, b" ", policy)
}

// Appends a symlink and its target to the text.
fn put_symlink(text: &mut Vec<u8>, path: &Path, target: &[u8]) -> Result<(), AllocError>
    ensures { OnOk result (text.new.items ≡ text.old.items
        ++ (codes "symlink " ++ (path_text path.now ++ (codes " " ++ word_text target.now)))) }
{
    put_path(text, b"symlink ", path)?;
    put_word(text, b" ", target)
}

// Appends the old and the new path of a node to the text.
fn put_rename(text: &mut Vec<u8>, old_path: &Path, new_path: &Path) -> Result<(), AllocError>
    ensures { OnOk result (text.new.items ≡ text.old.items
        ++ (codes "rename " ++ (path_text old_path.now ++ (codes " " ++ path_text new_path.now)))) }
{
    put_path(text, b"rename ", old_path)?;
    put_path(text, b" ", new_path)
}

// Appends a directory and the number of the first name to the text.
fn put_list(text: &mut Vec<u8>, path: &Path, start: u32) -> Result<(), AllocError>
    ensures { OnOk result (text.new.items ≡ text.old.items
        ++ (codes "list " ++ (path_text path.now ++ (codes " " ++ decimal_of start)))) }
{
    put_path(text, b"list ", path)?;
    put_number(text, b" ", u64::from(start))
}

// Appends a record, its expected version and the number of its bytes to the text.
fn put_store(text: &mut Vec<u8>, name: &[u8], expected: u32, count: u64) -> Result<(), AllocError>
    ensures { OnOk result (text.new.items ≡ text.old.items
        ++ (codes "meta-put " ++ store_text name.now expected count)) }
{
    put_record(text, b"meta-put ", name)?;
    put_number(text, b" ", u64::from(expected))?;
    put_number(text, b" ", count)
}
