//! Why a change of the tree is refused.
use thiserror::Error;

/// Why a change of the tree is refused; the tree is then unchanged.
#[derive(Clone, Copy, Debug, PartialEq, Eq, Error)]
pub enum DiskFault {
    /// The disk or the directory is full.
    #[error("no space is left on the disk")]
    NoSpace,
    /// Out of memory.
    #[error("out of memory")]
    NoMemory,
}
