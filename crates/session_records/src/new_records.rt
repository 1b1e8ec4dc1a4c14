//! The records that a session makes.

ghost use Rattle.std.specs.Prelude.{◌≡◌, Some, IfOk};
ghost use Rattle.fsc_keys.specs.Keys.{descriptor_of};
ghost use Rattle.key_wrap.specs.Wrapping.{opened_secret, wrapped_secret};
ghost use Rattle.script_words.specs.NewSecrets.{IsNewSecret};
ghost use Rattle.session_records.specs.MadeRecords.{MadeProtectorsOpen, MadePoliciesOpen};
ghost use Rattle.session_records.specs.MadeRecords.{MadeWrapsOpen, OpenedPoliciesAreNamed};
ghost use Rattle.session_records.specs.ChangedPolicies.{AddedProtectorsOpen, EarlierProtectorsOpen};
ghost use Rattle.session_records.specs.ChangedRecords.{ChangedProtectorsOpen};
ghost use Rattle.session_records.specs.NewProtectors as spec;

use argon_kdf::Stretch;
use byte_words::wipe;
use key_wrap::{unwrapping_undoes_wrapping, wrap};
use protector_meta::{Descriptor, Protector, ProtectorKind, Stretching};
use script_lang::NewSecret;
use short_bytes::Label;
use std::alloc::{AllocError, Global};

// The parts of a new protector beside its label and its secret: its key, the iv under which the key is
// wrapped, and the salt of a passphrase.
#[derive(Drop)]
pub(crate) struct ProtectorParts {
    pub(crate) key: [u8; 32],
    pub(crate) iv: [u8; 16],
    pub(crate) salt: [u8; 16],
}

// The protector of this label with this key, which a new secret opens.
pub(crate) fn made_protector<S: Stretch>(
    alloc: Global,
    stretches: &S,
    label: &Label,
    new: &NewSecret,
    parts: &ProtectorParts,
) -> Result<Protector, AllocError>
    requires ready { S.ready stretches.now }
    requires secret { IsNewSecret new.now }
    ensures value { IfOk result (λ protector. protector
        ≡ spec.made_protector label.now parts.now.key new.now parts.now.iv parts.now.salt) }
    ensures opens { IfOk result (λ protector. opened_secret
        (spec.new_wrapping_key parts.now.salt new.now) protector.iv protector.key protector.tag
        ≡ Some parts.now.key) }
{
    let mut wrapping = new_wrapping_key(alloc, stretches, &parts.salt, new)?;
    let kind = new_kind(&parts.salt, new);
    let protector = wrapped_protector(label, kind, &parts.key, &wrapping, &parts.iv);
    wipe(&mut wrapping);
    Ok(protector)
}

// The protector of this label and kind with this key, wrapped under a wrapping key.
fn wrapped_protector(
    label: &Label,
    kind: ProtectorKind,
    key: &[u8; 32],
    wrapping: &[u8; 32],
    iv: &[u8; 16],
) -> Protector
    ensures name { result.name ≡ label.now }
    ensures kind { result.kind ≡ kind }
    ensures descriptor { result.descriptor ≡ descriptor_of key.now }
    ensures iv { result.iv ≡ iv.now }
    ensures key { result.key ≡ (wrapped_secret wrapping.now iv.now key.now).0 }
    ensures tag { result.tag ≡ (wrapped_secret wrapping.now iv.now key.now).1 }
    ensures opens { opened_secret wrapping.now result.iv result.key result.tag ≡ Some key.now }
{
    let mut wrapped = [0; 32];
    let tag = wrap(wrapping, iv, key, &mut wrapped);
    // Only this law says that the record opens.
    unwrapping_undoes_wrapping();
    Protector {
        name: *label,
        kind,
        descriptor: Descriptor::of_key(key),
        iv: *iv,
        key: wrapped,
        tag,
    }
}

// The source of a new secret's wrapping key, with this salt for a passphrase.
pub(crate) fn new_kind(salt: &[u8; 16], new: &NewSecret) -> ProtectorKind
    ensures { result ≡ spec.new_kind salt.now new.now }
{
    match new {
        NewSecret::Raw(_) => ProtectorKind::Raw,
        NewSecret::Pass { costs, .. } => match Stretching::new(costs.costs(), *salt) {
            Ok(stretching) => ProtectorKind::Pass(stretching),
            Err(_) => unreachable!(),
        },
    }
}

// The wrapping key of a new secret: the secret itself, or what the passphrase is stretched to with this
// salt.
pub(crate) fn new_wrapping_key<S: Stretch>(
    alloc: Global,
    stretches: &S,
    salt: &[u8; 16],
    new: &NewSecret,
) -> Result<[u8; 32], AllocError>
    requires ready { S.ready stretches.now }
    requires secret { IsNewSecret new.now }
    ensures { IfOk result (λ key. key ≡ spec.new_wrapping_key salt.now new.now) }
{
    match new {
        NewSecret::Raw(raw) => Ok(*raw),
        NewSecret::Pass { costs, passphrase } => {
            let mut key = [0; 32];
            stretches.stretch(alloc, &costs.costs(), passphrase.as_slice(), salt, &mut key)?;
            Ok(key)
        }
    }
}

/// Does nothing. Its contract is the law that the records that a session makes open again from their
/// text, if a record can spell them.
/// - A protector opens with its secret, and one that got another secret opens with that one.
/// - A policy opens through its protector, and a wrap with the key of its protector.
/// - An opened policy that got a wrap for a further protector opens through that one, and with any wrap more
///   through each protector that opened it before.
/// - The key of a policy that was opened has the identifier in its record.
pub fn made_records_open()
    ensures protectors { MadeProtectorsOpen }
    ensures changed { ChangedProtectorsOpen }
    ensures policies { MadePoliciesOpen }
    ensures wraps { MadeWrapsOpen }
    ensures added { AddedProtectorsOpen }
    ensures earlier { EarlierProtectorsOpen }
    ensures named { OpenedPoliciesAreNamed }
{
    unwrapping_undoes_wrapping();
}
