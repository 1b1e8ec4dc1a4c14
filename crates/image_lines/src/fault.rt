//! Why a text is not read as an image.

use std::alloc::AllocError;
use thiserror::Error;

/// Why a text was not read as an image.
#[derive(Clone, Copy, Debug, PartialEq, Eq, Error)]
pub enum ImageFault {
    /// This line, counted from 1, is at fault.
    #[error("line {line} is not as an image has it")]
    BadLine { line: u32 },
    /// There was no memory for the nodes' places or their marks.
    #[error("out of memory")]
    NoMemory,
}

impl From<AllocError> for ImageFault {
    ghost use Rattle.std.specs.Prelude.{◌≡◌};
    ghost use Rattle.image_lines.specs.declared.fault.ImageFault.TheVariants.{NoMemory};

    ghost from_gives = { λ _ fault. fault ≡ NoMemory };

    fn from(_error: AllocError) -> ImageFault {
        ImageFault::NoMemory
    }
}
