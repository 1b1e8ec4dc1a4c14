//! Records as they were loaded.

ghost use Rattle.std.specs.Prelude.{◌≡◌};
ghost use Rattle.protector_meta.specs.PolicyReading.{policy_read};
ghost use Rattle.protector_meta.specs.ProtectorReading.{protector_read};
ghost use Rattle.session_records.specs.LoadedRecords as spec;
ghost use Rattle.session_records.specs.Stopped.{Gives};

use crate::outcomes::outcome_of_other;
use crate::stop::Stop;
use mount_model::Reply;
use protector_meta::{MetaFault, PolicyFile, Protector, decode_policy_file, decode_protector};
use reply_text::Outcome;
use short_bytes::Label;
use std::alloc::Global;

/// A policy's record, and its version, which counts from 1.
#[derive(Drop)]
pub struct LoadedPolicy {
    pub version: u32,
    pub policy: PolicyFile,
}

/// A protector's record, and its version, which counts from 1.
#[derive(Drop)]
pub struct LoadedProtector {
    pub version: u32,
    pub protector: Protector,
}

/// Returns the policy of this label, by the reply to loading its record. Ends with `BadRecord` if the
/// record can't be read or has another name, and with the outcome of the reply if that isn't a record.
/// Otherwise its only error is `NoMemory`.
pub fn loaded_policy(alloc: Global, label: &Label, reply: &Reply) -> Result<LoadedPolicy, Stop>
    ensures { Gives result (spec.loaded_policy label.now reply.now) }
{
    match reply {
        Reply::Held { version, bytes } => { policy_read(alloc, label, *version, bytes.as_slice()) }
        _ => Err(Stop::Ended(outcome_of_other(reply))),
    }
}

// The policy of this label in a record's bytes.
fn policy_read(
    alloc: Global,
    label: &Label,
    version: u32,
    bytes: &[u8],
) -> Result<LoadedPolicy, Stop>
    ensures { Gives result (spec.checked_policy label.now version (policy_read bytes.now)) }
{
    match decode_policy_file(alloc, bytes) {
        Ok(policy) if policy.name == *label => Ok(LoadedPolicy { version, policy }),
        Err(MetaFault::NoMemory) => Err(Stop::NoMemory),
        _ => Err(Stop::Ended(Outcome::BadRecord)),
    }
}

// The protector of this label, by the reply to loading its record.
pub(crate) fn loaded_protector(label: &Label, reply: &Reply) -> Result<LoadedProtector, Outcome>
    ensures { result ≡ spec.loaded_protector label.now reply.now }
{
    match reply {
        Reply::Held { version, bytes } => protector_read(label, *version, bytes.as_slice()),
        _ => Err(outcome_of_other(reply)),
    }
}

fn protector_read(label: &Label, version: u32, bytes: &[u8]) -> Result<LoadedProtector, Outcome>
    ensures { result ≡ spec.checked_protector label.now version (protector_read bytes.now) }
{
    match decode_protector(bytes) {
        Ok(protector) if protector.name == *label => Ok(LoadedProtector { version, protector }),
        _ => Err(Outcome::BadRecord),
    }
}
