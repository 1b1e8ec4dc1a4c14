//! The records that a command makes with the bytes that it derives. The derived keys are wiped.

ghost use Rattle.std.specs.Prelude.{◌≡◌, length, Some, Ok, IfOk};
ghost use Rattle.fsc_keys.specs.Keys.{key_id_of};
ghost use Rattle.fsc_keys.specs.declared.raw_key.TheConstants.{MAX_RAW_KEY_BYTES};
ghost use Rattle.key_wrap.specs.Wrapping.{opened_secret};
ghost use Rattle.script_words.specs.NewSecrets.{IsNewSecret};
ghost use Rattle.session_records.specs.DerivedRecords as spec;
ghost use Rattle.session_records.specs.Derivations.{first_drawn};
ghost use Rattle.session_records.specs.NewProtectors.{new_wrapping_key};
ghost use Rattle.session_records.specs.PolicyRecords.{wrap_space_for};

use crate::derivations::Purpose;
use crate::derived_keys::{derived_iv, derived_key, derived_policy_key, derived_salt};
use crate::new_records::{ProtectorParts, made_protector, new_kind, new_wrapping_key};
use crate::opening::OpenedProtector;
use crate::options::options_or_default;
use crate::turn::Turn;
use crate::wrapping::{made_wrap, policy_with};
use argon_kdf::Stretch;
use byte_words::wipe;
use fsc_keys::{KeyId, RawKey, key_id};
use protector_meta::{PolicyFile, Protector, WrapList, rewrap};
use script_lang::{NewSecret, Options as SaidOptions};
use short_bytes::Label;
use std::alloc::{AllocError, Global};

/// Returns the protector of this label that the new secret opens; its key, iv and salt are derived from
/// the seed. Wipes the derived key. The only error is out of memory.
pub fn new_protector<S: Stretch>(
    alloc: Global,
    stretches: &S,
    seed: &[u8; 32],
    turn: Turn,
    label: &Label,
    new: &NewSecret,
) -> Result<Protector, AllocError>
    requires ready { S.ready stretches.now }
    requires secret { IsNewSecret new.now }
    ensures { IfOk result (λ protector. protector
        ≡ spec.new_protector seed.now turn.caller turn.number label.now new.now) }
{
    let mut parts = ProtectorParts {
        key: derived_key(seed, turn),
        iv: derived_iv(seed, turn),
        salt: derived_salt(seed, turn),
    };
    let protector = made_protector(alloc, stretches, label, new, &parts);
    wipe(&mut parts.key);
    protector
}

/// Returns the opened protector with the same key, wrapped under the wrapping key of a new secret, which
/// opens it. The iv and the salt are derived from the seed. Wipes the wrapping key. The only error is out
/// of memory.
pub fn protector_with_secret<S: Stretch>(
    alloc: Global,
    stretches: &S,
    seed: &[u8; 32],
    turn: Turn,
    opened: &OpenedProtector,
    new: &NewSecret,
) -> Result<Protector, AllocError>
    requires ready { S.ready stretches.now }
    requires new_secret { IsNewSecret new.now }
    ensures value { IfOk result (λ rewrapped. rewrapped ≡ spec.protector_with_secret seed.now turn.caller
        turn.number opened.now.loaded.protector opened.now.key new.now) }
    ensures opens { IfOk result (λ rewrapped. opened_secret
        (new_wrapping_key (first_drawn 16 seed.now turn.caller turn.number Purpose.Salt) new.now)
        rewrapped.iv rewrapped.key rewrapped.tag ≡ Some opened.now.key) }
{
    let mut protector = opened.loaded.protector.clone()?;
    let salt = derived_salt(seed, turn);
    let kind = new_kind(&salt, new);
    let mut wrapping = new_wrapping_key(alloc, stretches, &salt, new)?;
    rewrap(
        &mut protector,
        kind,
        &opened.key,
        &wrapping,
        &derived_iv(seed, turn),
    );
    wipe(&mut wrapping);
    Ok(protector)
}

/// Returns the policy of this label that is made for a protector with this key. The policy's own key and
/// the iv are derived from the seed. Wipes the policy's key. The only error is out of memory.
pub fn new_policy(
    alloc: Global,
    seed: &[u8; 32],
    turn: Turn,
    policy: &Label,
    protector: &Label,
    options: Option<SaidOptions>,
    key: &[u8; 32],
) -> Result<PolicyFile, AllocError>
    ensures { IfOk result (λ drawn. drawn ≡ spec.new_policy seed.now turn.caller turn.number policy.now
        protector.now options key.now) }
{
    let mut policy_key = derived_policy_key(seed, turn);
    let id = id_of(&policy_key);
    let iv = derived_iv(seed, turn);
    let wrap = made_wrap(protector, key, iv, &policy_key);
    wipe(&mut policy_key);
    let wraps = WrapList::of(alloc, wrap)?;
    Ok(PolicyFile {
        name: *policy,
        id,
        options: Some(options_or_default(options)),
        wraps,
    })
}

// The identifier of a policy's key.
fn id_of(policy_key: &[u8; 64]) -> KeyId
    ensures { result ≡ key_id_of policy_key.now }
{
    match RawKey::read(policy_key) {
        Ok(mut raw) => {
            let id = key_id(&raw);
            raw.wipe();
            id
        }
        Err(_) => unreachable!(),
    }
}

/// Returns the policy, whose key is the given one of 64 bytes, with one wrap more: for a further
/// protector with a key of its own. The iv is derived from the seed. The only error is out of memory.
pub fn policy_with_wrap(
    seed: &[u8; 32],
    turn: Turn,
    policy: PolicyFile,
    policy_key: &RawKey,
    added: &Label,
    key: &[u8; 32],
) -> Result<PolicyFile, AllocError>
    requires room { wrap_space_for added.now policy.wraps ≡ Ok tt }
    requires whole { length policy_key.now ≡ MAX_RAW_KEY_BYTES }
    ensures { IfOk result (λ widened. widened ≡ spec.policy_with_wrap seed.now turn.caller turn.number
        policy_key.now added.now key.now policy) }
{
    let wrap = made_wrap(added, key, derived_iv(seed, turn), policy_key.bytes());
    policy_with(wrap, policy)
}
