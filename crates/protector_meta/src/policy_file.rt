//! The record of a policy: its name, the identifier of its key, its options, and the wraps of that
//! key.

ghost use Rattle.std.specs.Prelude.{◌≡◌, [], ◌∷◌, ◌++◌, IfSome, IfNone, IsOk, IsOkUnless, OnOk, OnErr};
ghost use Rattle.protector_meta.specs.Wraps.{adding_fault, dropping_fault, wraps_without};

use crate::wraps::{Wrap, WrapFault, WrapList};
use fsc_keys::KeyId;
use policy_ctx::{Pad, Unit};
use short_bytes::Label;

/// The options of a directory whose policy is set by a record, unless its caller chooses others.
#[derive(Clone, Copy, Debug, PartialEq, Eq)]
pub struct Options {
    /// The multiple to which stored names are padded.
    pub pad: Pad,
    /// The unit into which contents are divided.
    pub unit: Unit,
}

/// The content of a policy's record.
#[derive(Drop)]
pub struct PolicyFile {
    /// The label by which the policy is named.
    pub name: Label,
    /// The identifier of the policy's key.
    pub id: KeyId,
    /// The options of a record of version 2; `None` for version 1.
    pub options: Option<Options>,
    /// The policy's key, wrapped once for each protector that opens it.
    pub wraps: WrapList,
}

/// Appends a wrap. Returns `Listed` if its protector has a wrap already, and otherwise `Full` if there
/// are 16 wraps. Otherwise the only error is `NoMemory`. After an error the policy is unchanged.
pub fn add_protector(policy: &mut PolicyFile, wrap: Wrap) -> Result<(), WrapFault>
    ensures added { OnOk result (policy.new ≡ record policy.old { wraps = policy.old.wraps ++ wrap ∷ [] }) }
    ensures kept { OnErr result (policy.new ≡ policy.old) }
    ensures refused { IfSome (adding_fault wrap.protector policy.old.wraps) (λ fault. result ≡ Err fault) }
    ensures accepted { IfNone (adding_fault wrap.protector policy.old.wraps)
        (IsOkUnless result WrapFault.NoMemory) }
{
    policy.wraps.add(wrap)
}

/// Removes the wrap for the protector of this label; the others stay in order. Returns `NotListed` if
/// there is no such wrap, and otherwise `LastOne` if there is no other wrap. Allocates nothing. After an
/// error the policy is unchanged.
pub fn drop_protector(policy: &mut PolicyFile, protector: &Label) -> Result<(), WrapFault>
    ensures dropped { OnOk result (policy.new
        ≡ record policy.old { wraps = wraps_without protector.now policy.old.wraps }) }
    ensures kept { OnErr result (policy.new ≡ policy.old) }
    ensures refused { IfSome (dropping_fault protector.now policy.old.wraps) (λ fault. result ≡ Err fault) }
    ensures accepted { IfNone (dropping_fault protector.now policy.old.wraps) (IsOk result) }
{
    policy.wraps.remove(protector)
}
