//! Why a text is no record.

use std::alloc::AllocError;
use thiserror::Error;

/// Why a text was not decoded.
#[derive(Clone, Copy, Debug, PartialEq, Eq, Error)]
pub enum MetaFault {
    /// The first line at fault, counted from 1: it is missing or not as a record has it.
    #[error("line {line} is not as a record has it")]
    Bad { line: u32 },
    /// There was no memory for the value.
    #[error("out of memory")]
    NoMemory,
}

impl From<AllocError> for MetaFault {
    ghost use Rattle.std.specs.Prelude.{◌≡◌};
    ghost use Rattle.protector_meta.specs.declared.fault.MetaFault.TheVariants.{NoMemory};

    ghost from_gives = { λ _ fault. fault ≡ NoMemory };

    fn from(_error: AllocError) -> MetaFault {
        MetaFault::NoMemory
    }
}
