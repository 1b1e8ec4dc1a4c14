//! The limits of an input.

use fsc_outside::InputLimits;
use image_lines::MAX_IMAGE_BYTES;

/// The maximum number of bytes of an input.
pub const MAX_INPUT_BYTES: usize = 1_048_576;

/// The maximum number of lines of an input. A last piece without a line feed counts as one.
pub const MAX_INPUT_LINES: usize = 20_000;

/// The maximum number of bytes of a script with a log after it. Some scripts have longer logs.
pub const MAX_CERTIFICATE_BYTES: usize = 67_108_864;

pub(crate) const CERTIFICATE_LIMITS: InputLimits = InputLimits {
    bytes: MAX_CERTIFICATE_BYTES,
    // No text of that many bytes has more lines.
    lines: MAX_CERTIFICATE_BYTES + 1,
};

pub(crate) const IMAGE_LIMITS: InputLimits = InputLimits {
    bytes: MAX_IMAGE_BYTES,
    // No text of that many bytes has more lines.
    lines: MAX_IMAGE_BYTES + 1,
};

pub(crate) const INPUT_LIMITS: InputLimits = InputLimits {
    bytes: MAX_INPUT_BYTES,
    lines: MAX_INPUT_LINES,
};
