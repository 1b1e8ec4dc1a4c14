//! The commands of a script that are a single call.

ghost use Rattle.std.specs.Prelude.{◌≡◌, ℕ, List, Some, IfOk, OnErr};
ghost use Rattle.mount_model.specs.Fits.{OpFits};
ghost use Rattle.script_lang.specs.CommandTasks.{IsAskable};
ghost use Rattle.fsc_commands.specs.Commands as spec;
ghost use Rattle.fsc_commands.specs.Commands.{AnyFits, MayTakeMemory};
ghost use Rattle.fsc_commands.specs.CommandGroups.{CarriesBytes, DerivesNonce, NamesPath};
ghost use Rattle.fsc_commands.specs.Steps.{names_in};

use crate::EntryList;
use crate::references::{filled, id_of_ref, number_or_zero, policy_with_settings};
use crate::stars::resolved_path;
use mount_model::Op;
use policy_ctx::encode_policy;
use script_lang::Verb;
use session_records::{Turn, derived_nonce, record_name};
use std::alloc::{AllocError, Global};

// Returns the call of a command that is a single one, or `None` if the command is a session's work or a
// pause. The mount may be asked for the call. A call with neither a path nor bytes needs no memory.
pub(crate) fn plain_op(
    alloc: Global,
    seed: &[u8; 32],
    turn: Turn,
    told: &EntryList,
    verb: &Verb,
) -> Result<Option<Op>, AllocError>
    requires { IsAskable verb.now }
    ensures value { IfOk result (λ op. op
        ≡ spec.plain_op seed.now turn.caller turn.uid turn.number (names_in told.now) verb.now) }
    ensures fits { IfOk result AnyFits }
    ensures memory { OnErr result (MayTakeMemory
        (spec.plain_op seed.now turn.caller turn.uid turn.number (names_in told.now) verb.now)) }
{
    match verb {
        Verb::RemoveKey(key) => Ok(Some(Op::RemoveKey { id: id_of_ref(key) })),
        Verb::RemoveKeyAll(key) => Ok(Some(Op::RemoveKeyAll { id: id_of_ref(key) })),
        Verb::KeyStatus(key) => Ok(Some(Op::KeyStatus { id: id_of_ref(key) })),
        Verb::DropCaches => Ok(Some(Op::DropCaches)),
        Verb::Close(handle) => Ok(Some(Op::Close { handle: *handle })),
        Verb::Read {
            handle,
            offset,
            len,
        } => Ok(Some(Op::Read {
            handle: *handle,
            offset: *offset,
            len: *len,
        })),
        Verb::AddKey(_)
        | Verb::Write { .. }
        | Verb::Fill { .. }
        | Verb::MetaGet(_)
        | Verb::MetaPut { .. } => Ok(Some(bytes_op(alloc, verb)?)),
        Verb::SetPolicy { .. }
        | Verb::SetPolicyBytes { .. }
        | Verb::Mkdir(_)
        | Verb::Create(_)
        | Verb::Symlink { .. } => Ok(Some(nonce_op(alloc, seed, turn, told, verb)?)),
        Verb::GetPolicy(_)
        | Verb::ReadLink(_)
        | Verb::Unlink(_)
        | Verb::Rmdir(_)
        | Verb::Rename { .. }
        | Verb::List { .. }
        | Verb::Stat(_)
        | Verb::Open(_) => Ok(Some(path_op(alloc, told, verb)?)),
        // (a session's work, or a pause)
        _ => Ok(None),
    }
}

// Returns the call of a command with bytes and no path.
fn bytes_op(alloc: Global, verb: &Verb) -> Result<Op, AllocError>
    requires asked { IsAskable verb.now }
    requires bytes { CarriesBytes verb.now }
    ensures value { IfOk result (λ op. (seed : List ℕ) (caller uid number : ℕ) (names : List (List ℕ))
        → spec.plain_op seed caller uid number names verb.now ≡ Some op) }
    ensures fits { IfOk result OpFits }
{
    match verb {
        Verb::AddKey(raw) => Ok(Op::AddKey {
            raw: raw.copy(alloc)?,
        }),
        Verb::Write {
            handle,
            offset,
            bytes,
        } => Ok(Op::Write {
            handle: *handle,
            offset: *offset,
            bytes: bytes.copy(alloc)?,
        }),
        Verb::Fill {
            handle,
            offset,
            len,
            byte,
        } => Ok(Op::Write {
            handle: *handle,
            offset: *offset,
            bytes: filled(alloc, *len, *byte)?,
        }),
        Verb::MetaGet(record) => Ok(Op::MetaLoad {
            name: record_name(alloc, record)?,
        }),
        Verb::MetaPut {
            record,
            expected,
            bytes,
        } => Ok(Op::MetaStore {
            name: record_name(alloc, record)?,
            expected: *expected,
            bytes: bytes.copy(alloc)?,
        }),
        _ => unreachable!(),
    }
}

// Returns the call of a command with a path and a nonce of its own.
fn nonce_op(
    alloc: Global,
    seed: &[u8; 32],
    turn: Turn,
    told: &EntryList,
    verb: &Verb,
) -> Result<Op, AllocError>
    requires asked { IsAskable verb.now }
    requires nonce { DerivesNonce verb.now }
    ensures value { IfOk result (λ op. spec.plain_op seed.now turn.caller turn.uid turn.number
        (names_in told.now) verb.now ≡ Some op) }
    ensures fits { IfOk result OpFits }
{
    let nonce = derived_nonce(seed, turn);
    match verb {
        Verb::SetPolicy {
            path,
            key,
            settings,
        } => Ok(Op::SetPolicy {
            path: resolved_path(alloc, told, path)?,
            policy: encode_policy(&policy_with_settings(id_of_ref(key), *settings)),
            nonce,
        }),
        Verb::SetPolicyBytes { path, policy } => Ok(Op::SetPolicy {
            path: resolved_path(alloc, told, path)?,
            policy: *policy,
            nonce,
        }),
        Verb::Mkdir(path) => Ok(Op::Mkdir {
            path: resolved_path(alloc, told, path)?,
            nonce,
        }),
        Verb::Create(path) => Ok(Op::Create {
            path: resolved_path(alloc, told, path)?,
            nonce,
        }),
        Verb::Symlink { path, target } => Ok(Op::Symlink {
            path: resolved_path(alloc, told, path)?,
            target: target.copy(alloc)?,
            nonce,
        }),
        _ => unreachable!(),
    }
}

// Returns the call of a command with a path and no nonce.
fn path_op(alloc: Global, told: &EntryList, verb: &Verb) -> Result<Op, AllocError>
    requires asked { IsAskable verb.now }
    requires path { NamesPath verb.now }
    ensures value { IfOk result (λ op. (seed : List ℕ) (caller uid number : ℕ)
        → spec.plain_op seed caller uid number (names_in told.now) verb.now ≡ Some op) }
    ensures fits { IfOk result OpFits }
{
    match verb {
        Verb::GetPolicy(path) => Ok(Op::GetPolicy {
            path: resolved_path(alloc, told, path)?,
        }),
        Verb::ReadLink(path) => Ok(Op::ReadLink {
            path: resolved_path(alloc, told, path)?,
        }),
        Verb::Unlink(path) => Ok(Op::Unlink {
            path: resolved_path(alloc, told, path)?,
        }),
        Verb::Rmdir(path) => Ok(Op::Rmdir {
            path: resolved_path(alloc, told, path)?,
        }),
        Verb::Rename { old_path, new_path } => Ok(Op::Rename {
            old_path: resolved_path(alloc, told, old_path)?,
            new_path: resolved_path(alloc, told, new_path)?,
        }),
        Verb::List { path, start } => Ok(Op::List {
            path: resolved_path(alloc, told, path)?,
            start: number_or_zero(*start),
        }),
        Verb::Stat(path) => Ok(Op::Stat {
            path: resolved_path(alloc, told, path)?,
        }),
        Verb::Open(path) => Ok(Op::OpenNode {
            path: resolved_path(alloc, told, path)?,
        }),
        _ => unreachable!(),
    }
}
