//! Why a record isn't stored.

ghost use Rattle.std.specs.Prelude.{◌≡◌};
ghost use Rattle.meta_files.specs.declared.fault.StoreFault.TheVariants.{NoMemory};

use std::alloc::{AllocError, AllocFailed};
use thiserror::Error;

/// Why a record wasn't stored. After each of these errors the records are unchanged.
#[derive(Clone, Copy, Debug, PartialEq, Eq, Error)]
pub enum StoreFault {
    /// A record has at most 8,192 bytes.
    #[error("more than 8192 bytes")]
    TooBig,
    /// The record has another version than the one expected. A record that isn't there has version 0.
    #[error("the version is {version}")]
    Changed { version: u32 },
    /// There are 1,024 records already, or the version can't rise any more.
    #[error("no space for a record")]
    NoSpace,
    /// Out of memory.
    #[error("out of memory")]
    NoMemory,
}

impl From<AllocError> for StoreFault {
    ghost from_gives = { λ _ fault. fault ≡ NoMemory };

    fn from(_error: AllocError) -> StoreFault {
        StoreFault::NoMemory
    }
}

impl<T: Drop> From<AllocFailed<T>> for StoreFault {
    ghost from_gives = { λ _ fault. fault ≡ NoMemory };

    fn from(_error: AllocFailed<T>) -> StoreFault {
        StoreFault::NoMemory
    }
}
