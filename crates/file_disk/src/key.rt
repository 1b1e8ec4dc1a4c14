//! What the contents of a file are encrypted with.
ghost use Rattle.std.specs.Prelude.{◌≡◌, ◌%◌, ◌^◌};

use policy_ctx::Unit;

/// A key for the contents of files: its 64 bytes, the index at which the units of a file start, and the
/// size of a unit.
#[derive(Drop)]
pub struct ContentsKey {
    /// Two keys of AES-256, as XTS takes them.
    pub bytes: [u8; 64],
    /// The index of a file's first unit: 0, or a multiple of 2^32 under a key that files share.
    pub start: u64,
    /// The size of a unit.
    pub unit: Unit,
    pub ghost apart: { start % 2 ^ 32 ≡ 0 },
}
