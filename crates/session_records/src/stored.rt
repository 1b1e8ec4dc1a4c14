//! Records as they are stored: their names, and their texts, which a call can carry.

ghost use Rattle.std.specs.Prelude.{◌≡◌, ◌≤◌, ◌++◌, length, IfOk};
ghost use Rattle.mount_limits.specs.declared.TheConstants.{MAX_CARRIED_BYTES};
ghost use Rattle.mount_model.specs.Carried.{HasLength};
ghost use Rattle.mount_model.specs.declared.limits.TheConstants.{MAX_RECORD_NAME_BYTES};
ghost use Rattle.protector_meta.specs.PolicyText.{policy_text};
ghost use Rattle.protector_meta.specs.ProtectorText.{protector_text};
ghost use Rattle.script_words.specs.Records as records;

use item_list::Bytes;
use protector_meta::{PolicyFile, Protector, encode_policy_file, encode_protector};
use script_lang::Record;
use short_bytes::Label;
use std::alloc::{AllocError, Global};

/// Returns the name under which a mount stores the record. The only error is out of memory.
pub fn record_name(alloc: Global, record: &Record) -> Result<Bytes, AllocError>
    ensures value { IfOk result (λ name. name ≡ records.record_name «record».now) }
    ensures fits { IfOk result (λ name. HasLength name MAX_RECORD_NAME_BYTES) }
{
    match record {
        Record::Protector(label) => named(alloc, b"protector/", label),
        Record::Policy(label) => named(alloc, b"policy/", label),
    }
}

// A record's name: what kind of record it is, and its label.
fn named(alloc: Global, kind: &[u8], label: &Label) -> Result<Bytes, AllocError>
    requires { length kind.now ≤ 10 }
    ensures value { IfOk result (λ name. name ≡ kind.now ++ label.now) }
    ensures fits { IfOk result (λ name. HasLength name MAX_RECORD_NAME_BYTES) }
{
    let mut name = Vec::from_slice(alloc, kind)?;
    name.extend_from_slice(label.bytes())?;
    Ok(Bytes::from_vec(name))
}

/// Returns the text of a policy's record. A call can carry it. The only error is out of memory.
pub fn stored_policy(alloc: Global, policy: &PolicyFile) -> Result<Bytes, AllocError>
    ensures text { IfOk result (λ text. text ≡ policy_text policy.now) }
    ensures few { IfOk result (λ text. length text ≤ MAX_CARRIED_BYTES) }
{
    let text = encode_policy_file(alloc, policy)?;
    Ok(text)
}

/// Returns the text of a protector's record. A call can carry it. The only error is out of memory.
#[tactic(auto, using(crate::proofs::TextLemmas::protector_text_is_short))]
pub fn stored_protector(alloc: Global, protector: &Protector) -> Result<Bytes, AllocError>
    ensures text { IfOk result (λ text. text ≡ protector_text protector.now) }
    ensures few { IfOk result (λ text. length text ≤ MAX_CARRIED_BYTES) }
{
    let text = encode_protector(alloc, protector)?;
    Ok(text)
}
