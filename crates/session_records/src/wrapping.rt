//! Policies' keys, wrapped under the keys of protectors.

ghost use Rattle.std.specs.Prelude.{◌≡◌, length, Some, None, IfOk};
ghost use Rattle.fsc_keys.specs.declared.raw_key.TheConstants.{MAX_RAW_KEY_BYTES};
ghost use Rattle.key_wrap.specs.Wrapping.{opened_secret};
ghost use Rattle.protector_meta.specs.Wraps.{adding_fault};
ghost use Rattle.session_records.specs.NewPolicies as new;
ghost use Rattle.session_records.specs.PolicyRecords as spec;

use crate::outcomes::outcome_of_wraps;
use key_wrap::{unwrapping_undoes_wrapping, wrap};
use protector_meta::{PolicyFile, Wrap, WrapList, add_protector, drop_protector};
use reply_text::Outcome;
use short_bytes::Label;
use std::alloc::AllocError;

// A policy's key of 64 bytes, wrapped with an iv under the key of the protector of this label, which opens it
// again.
pub(crate) fn made_wrap(protector: &Label, key: &[u8; 32], iv: [u8; 16], policy_key: &[u8]) -> Wrap
    requires { length policy_key.now ≡ MAX_RAW_KEY_BYTES }
    ensures value { result ≡ new.made_wrap protector.now key.now iv policy_key.now }
    ensures opens { opened_secret key.now result.iv result.key result.tag ≡ Some policy_key.now }
{
    let mut wrapped = [0; 64];
    let tag = wrap(key, &iv, policy_key, &mut wrapped);
    // Only this law says that the wrap opens.
    unwrapping_undoes_wrapping();
    Wrap {
        protector: *protector,
        iv,
        key: wrapped,
        tag,
    }
}

/// Checks whether the protector of this label can be given a wrap. Returns `Listed` if it has one
/// already, and otherwise `Full` if there are `MAX_WRAPS` wraps.
pub fn wrap_space_for(protector: &Label, wraps: &WrapList) -> Result<(), Outcome>
    ensures { result ≡ spec.wrap_space_for protector.now wraps.now }
{
    match wraps.adding_fault(protector) {
        Some(fault) => Err(outcome_of_wraps(fault)),
        None => Ok(()),
    }
}

// The policy with this wrap after its others, if it can be added.
pub(crate) fn policy_with(wrap: Wrap, policy: PolicyFile) -> Result<PolicyFile, AllocError>
    requires { adding_fault wrap.protector policy.wraps ≡ None }
    ensures { IfOk result (λ with. with ≡ spec.policy_with wrap policy) }
{
    let mut policy = policy;
    match add_protector(&mut policy, wrap) {
        Ok(()) => Ok(policy),
        Err(_) => Err(AllocError),
    }
}

/// Returns the policy without its wrap for the protector of this label: `NotListed` if there is no such
/// wrap, `LastOne` if it is the only one.
pub fn policy_without(mut policy: PolicyFile, protector: &Label) -> Result<PolicyFile, Outcome>
    ensures { result ≡ spec.policy_without protector.now policy }
{
    match drop_protector(&mut policy, protector) {
        Ok(()) => Ok(policy),
        Err(fault) => Err(outcome_of_wraps(fault)),
    }
}
