//! The writer of commands: a name, and the other words, each after a space.

ghost use Rattle.std.specs.Prelude.{◌≡◌, ◌++◌, OnOk};
ghost use Rattle.script_lang.specs.VerbText.{verb_text, behind};
ghost use Rattle.script_lang.specs.VerbWords.{verb_words};
ghost use Rattle.script_lang.specs.VerbGroups.{BeginsWithPath, BeginsWithLabel, HasNumbers};

use crate::settings_writer::{
    push_optional_number, push_optional_options, push_optional_settings, push_settings,
};
use crate::verb::Verb;
use script_words::{
    push_hex, push_hex_or_none, push_key, push_label, push_new_secret, push_number, push_path,
    push_record, push_secret, push_word,
};
use std::alloc::{AllocError, Global};

// Appends a command to a text.
#[tactic(auto, unfolding(crate::specs::VerbText::verb_text))]
pub(crate) fn write_verb(alloc: Global, text: &mut Vec<u8>, verb: &Verb) -> Result<(), AllocError>
    ensures { OnOk result (text.new.items ≡ text.old.items ++ verb_text verb.now) }
{
    text.extend_from_slice(verb.name().text())?;
    write_words(alloc, text, verb)
}

// Appends the words after the name.
fn write_words(alloc: Global, text: &mut Vec<u8>, verb: &Verb) -> Result<(), AllocError>
    ensures { OnOk result (text.new.items ≡ behind text.old.items (verb_words verb.now)) }
{
    match verb {
        Verb::AddKey(bytes) => push_hex(text, bytes.as_slice()),
        Verb::RemoveKey(key) | Verb::RemoveKeyAll(key) | Verb::KeyStatus(key) => {
            push_key(text, key)
        }
        Verb::GetPolicy(path)
        | Verb::Mkdir(path)
        | Verb::Create(path)
        | Verb::ReadLink(path)
        | Verb::Unlink(path)
        | Verb::Rmdir(path)
        | Verb::Stat(path)
        | Verb::Open(path) => push_path(alloc, text, path),
        Verb::Close(handle) => push_number(text, *handle),
        Verb::DropCaches | Verb::Pause => Ok(()),
        Verb::MetaGet(record) => push_record(text, record),
        Verb::ProtectorLink(label)
        | Verb::Lock(label)
        | Verb::Status(label)
        | Verb::Migrate(label) => push_label(text, label),
        Verb::SetPolicy { .. }
        | Verb::SetPolicyBytes { .. }
        | Verb::Symlink { .. }
        | Verb::Rename { .. }
        | Verb::List { .. }
        | Verb::Encrypt { .. } => write_behind_path(alloc, text, verb),
        Verb::Read { .. } | Verb::Write { .. } | Verb::Fill { .. } | Verb::MetaPut { .. } => {
            write_numbers(text, verb)
        }
        Verb::Protector { .. }
        | Verb::ProtectorChange { .. }
        | Verb::PolicyNew { .. }
        | Verb::PolicyAdd { .. }
        | Verb::PolicyDrop { .. }
        | Verb::Unlock { .. } => write_labels(alloc, text, verb),
    }
}

// Writes a path, and further words.
fn write_behind_path(alloc: Global, text: &mut Vec<u8>, verb: &Verb) -> Result<(), AllocError>
    requires { BeginsWithPath verb.now }
    ensures { OnOk result (text.new.items ≡ behind text.old.items (verb_words verb.now)) }
{
    match verb {
        Verb::SetPolicy {
            path,
            key,
            settings,
        } => {
            push_path(alloc, text, path)?;
            push_key(text, key)?;
            push_settings(text, settings)
        }
        Verb::SetPolicyBytes { path, policy } => {
            push_path(alloc, text, path)?;
            push_hex(text, policy)
        }
        Verb::Symlink { path, target } => {
            push_path(alloc, text, path)?;
            push_word(alloc, text, target.as_slice())
        }
        Verb::Rename { old_path, new_path } => {
            push_path(alloc, text, old_path)?;
            push_path(alloc, text, new_path)
        }
        Verb::List { path, start } => {
            push_path(alloc, text, path)?;
            push_optional_number(text, *start)
        }
        Verb::Encrypt {
            path,
            policy,
            settings,
        } => {
            push_path(alloc, text, path)?;
            push_label(text, policy)?;
            push_optional_settings(text, settings)
        }
        _ => unreachable!(),
    }
}

// Writes several numbers, and the words before or after them.
fn write_numbers(text: &mut Vec<u8>, verb: &Verb) -> Result<(), AllocError>
    requires { HasNumbers verb.now }
    ensures { OnOk result (text.new.items ≡ behind text.old.items (verb_words verb.now)) }
{
    match verb {
        Verb::Read {
            handle,
            offset,
            len,
        } => {
            push_number(text, *handle)?;
            push_number(text, *offset)?;
            push_number(text, *len)
        }
        Verb::Write {
            handle,
            offset,
            bytes,
        } => {
            push_number(text, *handle)?;
            push_number(text, *offset)?;
            push_hex_or_none(text, bytes.as_slice())
        }
        Verb::Fill {
            handle,
            offset,
            len,
            byte,
        } => {
            push_number(text, *handle)?;
            push_number(text, *offset)?;
            push_number(text, *len)?;
            push_number(text, u32::from(*byte))
        }
        Verb::MetaPut {
            record,
            expected,
            bytes,
        } => {
            push_record(text, record)?;
            push_number(text, *expected)?;
            push_hex_or_none(text, bytes.as_slice())
        }
        _ => unreachable!(),
    }
}

// Writes a label, and further words.
fn write_labels(alloc: Global, text: &mut Vec<u8>, verb: &Verb) -> Result<(), AllocError>
    requires { BeginsWithLabel verb.now }
    ensures { OnOk result (text.new.items ≡ behind text.old.items (verb_words verb.now)) }
{
    match verb {
        Verb::Protector { protector, secret } => {
            push_label(text, protector)?;
            push_new_secret(alloc, text, secret)
        }
        Verb::ProtectorChange {
            protector,
            secret,
            new_secret,
        } => {
            push_label(text, protector)?;
            push_secret(alloc, text, secret)?;
            push_new_secret(alloc, text, new_secret)
        }
        Verb::PolicyNew {
            policy,
            protector,
            secret,
            options,
        } => {
            push_label(text, policy)?;
            push_label(text, protector)?;
            push_secret(alloc, text, secret)?;
            push_optional_options(text, options)
        }
        Verb::PolicyAdd {
            policy,
            protector,
            secret,
            added,
            added_secret,
        } => {
            push_label(text, policy)?;
            push_label(text, protector)?;
            push_secret(alloc, text, secret)?;
            push_label(text, added)?;
            push_secret(alloc, text, added_secret)
        }
        Verb::PolicyDrop { policy, protector } => {
            push_label(text, policy)?;
            push_label(text, protector)
        }
        Verb::Unlock {
            policy,
            protector,
            secret,
        } => {
            push_label(text, policy)?;
            push_label(text, protector)?;
            push_secret(alloc, text, secret)
        }
        _ => unreachable!(),
    }
}
