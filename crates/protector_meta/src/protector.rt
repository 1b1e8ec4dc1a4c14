//! Protectors, as their records have them: the type of each field admits only what a record can spell.

ghost use Rattle.std.specs.Prelude.{◌≡◌, ◌↔◌, ℕ, List, IfOk, IfErr, IsOk, Ok, Err};
ghost use Rattle.byte_words.specs.Bytes.{AreBytesOfLength};
ghost use Rattle.argon_kdf.specs.CostLimits.{checked_costs};
ghost use Rattle.protector_meta.specs.Stretching.{IsStretching};
ghost use Rattle.argon_kdf.specs.declared.costs.Costs.{Costs};

use crate::descriptor::Descriptor;
use argon_kdf::{CostFault, Costs};
use short_bytes::Label;
use std::marker::Model;

/// How a passphrase is stretched to a wrapping key: Argon2id costs and a salt of 16 bytes. The costs are
/// 1 to 16 passes over 1 to 8 lanes, with at least 8 KiB for each lane and at most 65,536 KiB in all.
#[derive(Clone, Debug, PartialEq, Eq, Drop)]
pub struct Stretching {
    costs: Costs,
    salt: [u8; 16],
}

impl Model for Stretching {
    ghost Value = { Costs × List ℕ };

    ghost view = { λ stretching. (stretching.costs, stretching.salt) };

    ghost invariant = { λ stretching. IsStretching (stretching.costs, stretching.salt) };

    ghost inverse = { λ pair. record { costs = pair.0; salt = pair.1 } };
}

impl Stretching {
    /// Returns the stretching if the costs are in their ranges, and otherwise the fault of
    /// `Costs::check`.
    pub fn new(costs: Costs, salt: [u8; 16]) -> Result<Stretching, CostFault>
        ensures value { IfOk result (λ stretching. stretching ≡ (costs, salt)) }
        ensures exact { IsOk result ↔ (checked_costs costs ≡ Ok tt) }
        ensures fault { IfErr result (λ fault. checked_costs costs ≡ Err fault) }
    {
        costs.check()?;
        Ok(Stretching { costs, salt })
    }

    /// Returns the costs.
    pub fn costs(&self) -> Costs
        ensures value { result ≡ self.now.0 }
        ensures in_range { checked_costs result ≡ Ok tt }
    {
        self.costs
    }

    /// Returns the 16 bytes of the salt.
    pub fn salt(&self) -> &[u8; 16]
        ensures value { result.now ≡ self.now.1 }
        ensures in_form { AreBytesOfLength 16 result.now }
    {
        &self.salt
    }
}

/// Where the wrapping key of a protector comes from.
#[derive(Clone, Debug, PartialEq, Eq, Drop)]
pub enum ProtectorKind {
    /// The wrapping key is itself a secret of 32 bytes.
    Raw,
    /// The wrapping key is stretched from a passphrase.
    Pass(Stretching),
}

/// A protector's record. It contains the protector's own key, wrapped.
#[derive(Clone, Debug, PartialEq, Eq, Drop)]
pub struct Protector {
    /// The label by which the protector is named.
    pub name: Label,
    /// Where the wrapping key comes from.
    pub kind: ProtectorKind,
    /// The descriptor of the protector's key.
    pub descriptor: Descriptor,
    /// The iv with which the key was wrapped.
    pub iv: [u8; 16],
    /// The wrapped key.
    pub key: [u8; 32],
    /// The tag of the wrapped key.
    pub tag: [u8; 32],
}
