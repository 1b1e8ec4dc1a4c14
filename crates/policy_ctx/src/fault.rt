//! Why bytes are no policy or no context.

use thiserror::Error;

/// The first fault of bytes that are no policy or no context, in the order of the variants.
#[derive(Clone, Copy, Debug, PartialEq, Eq, Error)]
pub enum CtxFault {
    /// A policy has 24 bytes, a context 40.
    #[error("wrong length")]
    Length,
    /// Byte 0 is not 2.
    #[error("not version 2")]
    Version,
    /// Bytes 1 and 2 are not 1 (AES-256-XTS) and 4 (AES-256-CBC-CTS).
    #[error("unknown modes")]
    Modes,
    /// Byte 3 is not a padding, 0 to 3, with or without 8.
    #[error("unknown flags")]
    Flags,
    /// Byte 4 is not 0 and not 9 to 12.
    #[error("unknown data unit")]
    Unit,
    /// Bytes 5 to 7 are not 0.
    #[error("reserved bytes in use")]
    Reserved,
}
