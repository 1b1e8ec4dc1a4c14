//! What Argon2id may cost here, and the lengths of the texts that it is given.

/// The maximum number of passes over the memory.
pub const MAX_PASSES: u32 = 16;

/// The maximum number of lanes.
pub const MAX_LANES: u32 = 8;

/// The minimum of KiB of memory for each lane.
pub const MIN_KIB_PER_LANE: u32 = 8;

/// The maximum of KiB of memory, each of which is a block.
pub const MAX_KIB: u32 = 65_536;

/// The minimum number of bytes of a salt.
pub const MIN_SALT_BYTES: usize = 8;

/// The maximum number of bytes of a password, a salt, a secret and further bytes, for each of them alone.
pub const MAX_TEXT_BYTES: usize = 1024;
