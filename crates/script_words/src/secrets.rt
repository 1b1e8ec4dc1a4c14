//! The secrets of protectors, as a script gives them.

ghost use Rattle.std.specs.Prelude.{◌≡◌, ◌↔◌, IfOk, IfErr, IsOk, Ok, Err};
ghost use Rattle.argon_kdf.specs.CostLimits.{checked_costs};

use argon_kdf::{CostFault, Costs};
use item_list::Bytes;
use std::marker::Model;

/// The secret that opens a protector.
#[derive(Drop)]
pub enum Secret {
    /// The wrapping key itself.
    Raw([u8; 32]),
    /// A passphrase of 1 to 1,000 bytes.
    Pass(Bytes),
}

/// The secret of a new protector, or the next secret of one that changes.
#[derive(Drop)]
pub enum NewSecret {
    /// The wrapping key itself.
    Raw([u8; 32]),
    /// A passphrase of 1 to 1,000 bytes, and the costs of stretching it.
    Pass {
        costs: AllowedCosts,
        passphrase: Bytes,
    },
}

/// Costs in their ranges: 1 to 16 passes over 1 to 8 lanes, 8 KiB a lane to 65,536 KiB. In clauses they
/// are `Costs`.
#[derive(Clone, Copy, Debug, PartialEq, Eq)]
pub struct AllowedCosts {
    costs: Costs,
}

impl Model for AllowedCosts {
    ghost use Rattle.std.specs.Prelude.{◌≡◌, Ok};
    ghost use Rattle.argon_kdf.specs.declared.costs.Costs.{Costs};
    ghost use Rattle.argon_kdf.specs.CostLimits.{checked_costs};

    ghost Value = { Costs };

    ghost view = { λ allowed. allowed.costs };

    ghost invariant = { λ allowed. checked_costs allowed.costs ≡ Ok tt };

    ghost inverse = { λ costs. record { costs = costs } };
}

impl AllowedCosts {
    /// Returns the costs if they are in their ranges. Else the fault is the one of `Costs::check`.
    pub fn new(costs: Costs) -> Result<AllowedCosts, CostFault>
        ensures value { IfOk result (λ allowed. allowed ≡ costs) }
        ensures exact { IsOk result ↔ (checked_costs costs ≡ Ok tt) }
        ensures fault { IfErr result (λ fault. checked_costs costs ≡ Err fault) }
    {
        costs.check()?;
        Ok(AllowedCosts { costs })
    }

    /// Returns the costs.
    pub fn costs(&self) -> Costs
        ensures value { result ≡ self.now }
        ensures in_range { checked_costs result ≡ Ok tt }
    {
        self.costs
    }
}
