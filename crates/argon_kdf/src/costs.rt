//! What stretching a password is allowed to cost.

ghost use Rattle.std.specs.Prelude.{◌≡◌};

use crate::limits::{MAX_KIB, MAX_LANES, MAX_PASSES, MIN_KIB_PER_LANE};
use thiserror::Error;

/// The costs of Argon2id: how often it goes through its memory, how much that is, and in how many lanes.
#[derive(Clone, Copy, Debug, PartialEq, Eq)]
pub struct Costs {
    /// The number of passes, 1 to 16 (`MAX_PASSES`).
    pub passes: u32,
    /// KiB of memory, from 8 for each lane (`MIN_KIB_PER_LANE`) to 65,536 (`MAX_KIB`).
    pub kib: u32,
    /// The number of lanes, 1 to 8 (`MAX_LANES`).
    pub lanes: u32,
}

/// Which of the costs is out of its range.
#[derive(Clone, Copy, Debug, PartialEq, Eq, Error)]
pub enum CostFault {
    #[error("passes are 1 to 16")]
    Passes,
    #[error("lanes are 1 to 8")]
    Lanes,
    #[error("memory is 8 KiB a lane to 65,536 KiB")]
    Kib,
}

impl Costs {
    ghost use Rattle.argon_kdf.specs.CostLimits.{checked_costs};

    /// Returns an error unless each cost is in its range. The fault is that of the passes, else of the
    /// lanes, else of the memory.
    pub fn check(&self) -> Result<(), CostFault>
        ensures { result ≡ checked_costs self.now }
    {
        if !(1..=MAX_PASSES).contains(&self.passes) {
            return Err(CostFault::Passes);
        }
        if !(1..=MAX_LANES).contains(&self.lanes) {
            return Err(CostFault::Lanes);
        }
        if !(MIN_KIB_PER_LANE * self.lanes..=MAX_KIB).contains(&self.kib) {
            return Err(CostFault::Kib);
        }
        Ok(())
    }
}
