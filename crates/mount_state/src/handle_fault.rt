//! Why a handle isn't opened.

ghost use Rattle.std.specs.Prelude.{◌≡◌};
ghost use Rattle.mount_state.specs.declared.handle_fault.HandleFault.TheVariants.{NoMemory};

use std::alloc::AllocError;
use thiserror::Error;

/// Why a handle wasn't opened. Whichever it is, all handles are as before.
#[derive(Clone, Copy, Debug, PartialEq, Eq, Error)]
pub enum HandleFault {
    /// `MAX_HANDLES` handles are open, or the caller opened `MAX_OPENS`.
    #[error("too many handles")]
    NoSpace,
    /// There was no memory for it.
    #[error("out of memory")]
    NoMemory,
}

impl From<AllocError> for HandleFault {
    ghost from_gives = { λ _ fault. fault ≡ NoMemory };

    fn from(_error: AllocError) -> HandleFault {
        HandleFault::NoMemory
    }
}
