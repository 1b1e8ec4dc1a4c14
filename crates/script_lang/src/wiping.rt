//! Wipes a script's secrets in place.

ghost use Rattle.std.specs.Prelude.{◌≡◌, [], length, replicate};
ghost use Rattle.script_lang.specs.Wiped as spec;

use crate::commands::{CommandList, Script};
use crate::verb::Verb;
use byte_words::wipe;
use item_list::Bytes;
use script_words::{KeyRef, NewSecret, Secret};
use std::alloc::Global;
use std::mem;

/// Empties a script. Before that its raw keys, wrapping keys and passphrases are wiped in place, and so
/// are the targets of symlinks and the bytes that are written or stored. It takes no memory.
pub fn wipe_script(alloc: Global, script: &mut Script)
    ensures { script.new ≡ [] }
{
    let mut sections = mem::replace(script, Script::new(alloc)).into_vec();
    for section in sections.iter_mut() {
        wipe_commands(alloc, &mut section.commands);
    }
}

// Empties a list of commands, whose secrets are wiped first.
fn wipe_commands(alloc: Global, list: &mut CommandList)
    ensures { list.new ≡ [] }
{
    let mut commands = mem::replace(list, CommandList::new(alloc)).into_vec();
    for command in commands.iter_mut() {
        wipe_verb(alloc, &mut command.verb);
    }
}

// Replaces the secrets of a command by as many zeros.
fn wipe_verb(alloc: Global, verb: &mut Verb)
    ensures { verb.new ≡ spec.wiped_verb verb.old }
{
    match verb {
        Verb::AddKey(bytes) => wipe_bytes(alloc, bytes),
        Verb::RemoveKey(key) => wipe_key(key),
        Verb::RemoveKeyAll(key) => wipe_key(key),
        Verb::KeyStatus(key) => wipe_key(key),
        Verb::SetPolicy { key, .. } => wipe_key(key),
        Verb::Symlink { target, .. } => wipe_bytes(alloc, target),
        Verb::Write { bytes, .. } => wipe_bytes(alloc, bytes),
        Verb::MetaPut { bytes, .. } => wipe_bytes(alloc, bytes),
        Verb::Protector { secret, .. } => wipe_new_secret(alloc, secret),
        Verb::ProtectorChange {
            secret,
            new_secret,
            ..
        } => {
            wipe_secret(alloc, secret);
            wipe_new_secret(alloc, new_secret);
        }
        Verb::PolicyNew { secret, .. } => wipe_secret(alloc, secret),
        Verb::PolicyAdd {
            secret,
            added_secret,
            ..
        } => {
            wipe_secret(alloc, secret);
            wipe_secret(alloc, added_secret);
        }
        Verb::Unlock { secret, .. } => wipe_secret(alloc, secret),
        Verb::SetPolicyBytes { .. }
        | Verb::GetPolicy(_)
        | Verb::Mkdir(_)
        | Verb::Create(_)
        | Verb::ReadLink(_)
        | Verb::Unlink(_)
        | Verb::Rmdir(_)
        | Verb::Rename { .. }
        | Verb::List { .. }
        | Verb::Stat(_)
        | Verb::Open(_)
        | Verb::Close(_)
        | Verb::Read { .. }
        | Verb::Fill { .. }
        | Verb::DropCaches
        | Verb::MetaGet(_)
        | Verb::ProtectorLink(_)
        | Verb::PolicyDrop { .. }
        | Verb::Lock(_)
        | Verb::Status(_)
        | Verb::Encrypt { .. }
        | Verb::Migrate(_)
        | Verb::Pause => {}
    }
}

fn wipe_key(key: &mut KeyRef)
    ensures { key.new ≡ spec.wiped_key key.old }
{
    match key {
        KeyRef::Id(_) => {}
        KeyRef::Raw(raw) => raw.wipe(),
    }
}

fn wipe_secret(alloc: Global, secret: &mut Secret)
    ensures { secret.new ≡ spec.wiped_secret secret.old }
{
    match secret {
        Secret::Raw(key) => wipe(key),
        Secret::Pass(passphrase) => wipe_bytes(alloc, passphrase),
    }
}

fn wipe_new_secret(alloc: Global, secret: &mut NewSecret)
    ensures { secret.new ≡ spec.wiped_new_secret secret.old }
{
    match secret {
        NewSecret::Raw(key) => wipe(key),
        NewSecret::Pass { passphrase, .. } => wipe_bytes(alloc, passphrase),
    }
}

fn wipe_bytes(alloc: Global, bytes: &mut Bytes)
    ensures { bytes.new ≡ replicate (length bytes.old) 0 }
{
    let mut room = mem::replace(bytes, Bytes::new(alloc)).into_vec();
    wipe(room.as_mut_slice());
    *bytes = Bytes::from_vec(room);
}
