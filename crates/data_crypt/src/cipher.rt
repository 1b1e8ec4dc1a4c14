//! What the blocks of one file are stored and read with.
ghost use Rattle.std.specs.Prelude.{◌≡◌, ◌%◌, ◌^◌};

use policy_ctx::Unit;
use xts_mode::XtsKey;

/// The round keys for the contents of one file, the index at which its units start, and their size.
#[derive(Drop)]
pub struct FileCipher {
    /// The round keys.
    pub key: XtsKey,
    /// The index of the file's first unit: 0, or a multiple of 2^32 under a key that files share.
    pub start: u64,
    /// The size of a unit.
    pub unit: Unit,
    pub ghost apart: { start % 2 ^ 32 ≡ 0 },
}
