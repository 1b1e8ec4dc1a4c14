//! Why a claim isn't made.

ghost use Rattle.std.specs.Prelude.{◌≡◌};
ghost use Rattle.user_claims.specs.declared.fault.ClaimFault.TheVariants.{NoMemory};

use std::alloc::AllocError;
use thiserror::Error;

/// Why a claim wasn't made. All claims are as before then.
#[derive(Clone, Copy, Debug, PartialEq, Eq, Error)]
pub enum ClaimFault {
    /// The user has `MAX_CLAIMS` claims.
    #[error("the user has 64 claims")]
    Quota,
    /// There was no memory for it.
    #[error("out of memory")]
    NoMemory,
}

impl From<AllocError> for ClaimFault {
    ghost from_gives = { λ _ fault. fault ≡ NoMemory };

    fn from(_error: AllocError) -> ClaimFault {
        ClaimFault::NoMemory
    }
}
