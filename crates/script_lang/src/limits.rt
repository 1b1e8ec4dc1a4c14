//! The limits of commands. A limit that a mount has too is the mount's.

/// The maximum number of callers of a script.
pub const MAX_CALLERS: usize = 8;

/// The maximum length of a key that a command adds, in bytes. A raw key's own limit is lower, so that the
/// mount itself refuses a wrong length.
pub const MAX_ADDED_BYTES: usize = mount_limits::MAX_RAW_BYTES;

/// The maximum number of bytes that a command writes.
pub const MAX_WRITTEN_BYTES: usize = 4096;

/// The maximum number of bytes that a command fills with one value.
pub const MAX_FILLED_BYTES: u32 = mount_limits::MAX_WRITE_BYTES as u32;

/// The maximum number of bytes that a command puts into a record. A record's own limit is lower, so that
/// the mount itself refuses too many.
pub const MAX_PUT_BYTES: usize = mount_limits::MAX_CARRIED_BYTES;

/// The length of a policy, in bytes.
pub const POLICY_BYTES: usize = 24;
