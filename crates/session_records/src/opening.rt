//! How a protector opens with a secret, and a policy with a protector's key.

ghost use Rattle.std.specs.Prelude.{◌≡◌, ◌≤◌, [], length, Some, Ok, IfOk};
ghost use Rattle.argon_kdf.specs.Argon2id.{argon2id_tag};
ghost use Rattle.argon_kdf.specs.declared.limits.TheConstants.{MAX_TEXT_BYTES};
ghost use Rattle.fsc_keys.specs.Keys.{key_id_of};
ghost use Rattle.fsc_keys.specs.declared.raw_key.TheConstants.{MAX_RAW_KEY_BYTES};
ghost use Rattle.script_words.specs.Secrets.{IsSecret};
ghost use Rattle.session_records.specs.RecordKeys as keys;
ghost use Rattle.session_records.specs.Records as spec;
ghost use Rattle.session_records.specs.Records.{OtherKindsAreNotStretched, RawSecretsAreNotStretched};
ghost use Rattle.session_records.specs.Stopped.{Gives, IfNoMemory};

use crate::loading::{LoadedPolicy, LoadedProtector, loaded_policy, loaded_protector};
use crate::stop::Stop;
use argon_kdf::Stretch;
use byte_words::wipe;
use fsc_keys::{KeyId, RawKey, key_id};
use key_wrap::unwrap;
use mount_model::Reply;
use protector_meta::{Descriptor, PolicyFile, Protector, ProtectorKind, Stretching, Wrap};
use reply_text::Outcome;
use script_lang::Secret;
use short_bytes::Label;
use std::alloc::{AllocError, Global};

/// A protector whose record was loaded, and its key. The caller wipes the key before dropping it.
#[derive(Drop)]
pub struct OpenedProtector {
    pub loaded: LoadedProtector,
    pub key: [u8; 32],
}

/// A policy whose record was loaded, and its key. The caller wipes the key before dropping it.
#[derive(Drop)]
pub struct OpenedPolicy {
    pub loaded: LoadedPolicy,
    pub key: RawKey,
}

/// Returns the protector of this label, opened with a secret, by the reply to loading its record.
/// Allocates only to stretch a passphrase. Ends as `loaded_policy` does, and otherwise with
/// - `WrongKind` if the protector is of another kind than the secret,
/// - `WrongKey` if its tag isn't that of the secret,
/// - `BadRecord` if its key hasn't the descriptor in the record.
pub fn unwrapped_protector<S: Stretch>(
    alloc: Global,
    stretches: &S,
    label: &Label,
    secret: &Secret,
    reply: &Reply,
) -> Result<OpenedProtector, Stop>
    requires ready { S.ready stretches.now }
    requires secret { IsSecret secret.now }
    ensures value { Gives result (spec.unwrapped_protector label.now secret.now reply.now) }
    ensures memory { IfNoMemory result (spec.OpensByStretching label.now secret.now reply.now) }
{
    match loaded_protector(label, reply) {
        Ok(loaded) => protector_by(alloc, stretches, secret, loaded),
        Err(outcome) => Err(Stop::Ended(outcome)),
    }
}

/// Does nothing. Its contract is the law that only passphrases are stretched. So `unwrapped_protector` never
/// returns out of memory with a raw secret, nor for a protector of another kind than the secret.
pub fn only_passphrases_are_stretched()
    ensures raw { RawSecretsAreNotStretched }
    ensures kind { OtherKindsAreNotStretched }
{}

// Returns the protector opened with the secret. Wipes the wrapping key.
fn protector_by<S: Stretch>(
    alloc: Global,
    stretches: &S,
    secret: &Secret,
    loaded: LoadedProtector,
) -> Result<OpenedProtector, Stop>
    requires ready { S.ready stretches.now }
    requires secret { IsSecret secret.now }
    ensures value { Gives result (spec.protector_by secret.now (Ok loaded)) }
    ensures memory { IfNoMemory result (keys.IsStretched secret.now loaded.protector.kind) }
{
    match wrapping_key(alloc, stretches, secret, &loaded.protector.kind) {
        Ok(mut wrapping) => {
            let key = protector_key(&loaded.protector, &wrapping);
            wipe(&mut wrapping);
            match key {
                Ok(key) => Ok(OpenedProtector { loaded, key }),
                Err(outcome) => Err(Stop::Ended(outcome)),
            }
        }
        Err(stop) => Err(stop),
    }
}

/// Returns the policy of this label, opened through a protector with this key, by the reply to loading
/// its record. Its key has 64 bytes, and the identifier in the record. Ends as `loaded_policy` does, and
/// otherwise with
/// - `NotListed` if the policy has no wrap for the protector,
/// - `WrongKey` if the wrap's tag isn't that of the key,
/// - `BadRecord` if the policy's key hasn't the identifier in the record.
pub fn opened_policy(
    alloc: Global,
    label: &Label,
    protector: &Label,
    key: &[u8; 32],
    reply: &Reply,
) -> Result<OpenedPolicy, Stop>
    ensures value { Gives result (spec.opened_policy label.now protector.now key.now reply.now) }
    ensures identified { IfOk result (λ opened. key_id_of opened.key ≡ opened.loaded.policy.id) }
    ensures whole { IfOk result (λ opened. length opened.key ≡ MAX_RAW_KEY_BYTES) }
{
    match loaded_policy(alloc, label, reply) {
        Ok(loaded) => match policy_key(&loaded.policy, protector, key) {
            Ok(key) => Ok(OpenedPolicy { loaded, key }),
            Err(outcome) => Err(Stop::Ended(outcome)),
        },
        Err(stop) => Err(stop),
    }
}

// The wrapping key that a secret gives if the protector is of its kind: the secret itself, or what the
// passphrase is stretched to. Another kind is refused before anything is stretched, so it never ends with
// `NoMemory`.
fn wrapping_key<S: Stretch>(
    alloc: Global,
    stretches: &S,
    secret: &Secret,
    kind: &ProtectorKind,
) -> Result<[u8; 32], Stop>
    requires ready { S.ready stretches.now }
    requires secret { IsSecret secret.now }
    ensures value { Gives result (keys.wrapping_key secret.now kind.now) }
    ensures memory { IfNoMemory result (keys.IsStretched secret.now kind.now) }
{
    match secret {
        Secret::Raw(raw) => match kind {
            ProtectorKind::Raw => Ok(*raw),
            ProtectorKind::Pass(_) => Err(Stop::Ended(Outcome::WrongKind)),
        },
        Secret::Pass(passphrase) => match kind {
            ProtectorKind::Raw => Err(Stop::Ended(Outcome::WrongKind)),
            ProtectorKind::Pass(stretching) => {
                let key = stretched(alloc, stretches, passphrase.as_slice(), stretching)?;
                Ok(key)
            }
        },
    }
}

// What a passphrase is stretched to.
fn stretched<S: Stretch>(
    alloc: Global,
    stretches: &S,
    passphrase: &[u8],
    stretching: &Stretching,
) -> Result<[u8; 32], AllocError>
    requires ready { S.ready stretches.now }
    requires few { length passphrase.now ≤ MAX_TEXT_BYTES }
    ensures { IfOk result (λ key. key ≡ argon2id_tag stretching.now.0 passphrase.now stretching.now.1 [] []) }
{
    let mut key = [0; 32];
    stretches.stretch(
        alloc,
        &stretching.costs(),
        passphrase,
        stretching.salt(),
        &mut key,
    )?;
    Ok(key)
}

// The key of a protector under a wrapping key: `WrongKey` exactly when the tag differs, `BadRecord` if
// the key hasn't the descriptor in the record.
fn protector_key(protector: &Protector, wrapping: &[u8; 32]) -> Result<[u8; 32], Outcome>
    ensures { result ≡ keys.protector_key protector.now wrapping.now }
{
    let mut key = [0; 32];
    if unwrap(
        wrapping,
        &protector.iv,
        &protector.key,
        &protector.tag,
        &mut key,
    )
    .is_err()
    {
        return Err(Outcome::WrongKey);
    }
    if Descriptor::of_key(&key).bytes() != protector.descriptor.bytes() {
        wipe(&mut key);
        return Err(Outcome::BadRecord);
    }
    Ok(key)
}

// The key of a policy, through the protector of this label with this key. It has 64 bytes, and its identifier
// is the one in the policy's record.
fn policy_key(policy: &PolicyFile, label: &Label, key: &[u8; 32]) -> Result<RawKey, Outcome>
    ensures value { result ≡ keys.policy_key policy.now label.now key.now }
    ensures identified { IfOk result (λ raw. key_id_of raw ≡ policy.now.id) }
    ensures whole { IfOk result (λ raw. length raw ≡ MAX_RAW_KEY_BYTES) }
{
    match policy.wraps.find(label) {
        Some(wrap) => key_in_wrap(&policy.id, wrap, key),
        None => Err(Outcome::NotListed),
    }
}

fn key_in_wrap(id: &KeyId, wrap: &Wrap, key: &[u8; 32]) -> Result<RawKey, Outcome>
    ensures value { result ≡ keys.key_in_wrap id.now key.now (Some wrap.now) }
    ensures identified { IfOk result (λ raw. key_id_of raw ≡ id.now) }
    ensures whole { IfOk result (λ raw. length raw ≡ MAX_RAW_KEY_BYTES) }
{
    let mut opened = [0; 64];
    if unwrap(key, &wrap.iv, &wrap.key, &wrap.tag, &mut opened).is_err() {
        return Err(Outcome::WrongKey);
    }
    let raw = RawKey::read(&opened);
    wipe(&mut opened);
    match raw {
        Ok(mut raw) => {
            if key_id(&raw) != *id {
                raw.wipe();
                return Err(Outcome::BadRecord);
            }
            Ok(raw)
        }
        // (it has 64 bytes)
        Err(_) => Err(Outcome::BadRecord),
    }
}
