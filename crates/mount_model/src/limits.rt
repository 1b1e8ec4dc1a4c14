//! The limits of a mount and of its calls. Limits that a lower crate has too are defined there, and named
//! here again.

pub use fsc_keys::{MAX_RAW_KEY_BYTES, MIN_RAW_KEY_BYTES};
pub use meta_files::{LAST_VERSION, MAX_RECORD_BYTES, MAX_RECORDS};
pub use mount_limits::{
    BLOCK_SIZE, MAX_BLOCKS, MAX_CARRIED_BYTES, MAX_CHILDREN, MAX_FILE_BYTES, MAX_NODES,
    MAX_PART_BYTES, MAX_PARTS, MAX_RAW_BYTES, MAX_READ_BYTES, MAX_WRITE_BYTES,
};
pub use name_crypt::MAX_NAME_BYTES;

/// The maximum length of a symlink's target in a call, in bytes. A symlink's own limit is lower, so that
/// the mount itself can answer NameTooLong.
pub const MAX_TARGET_BYTES: usize = 1000;

/// The maximum length of a record's name, in bytes.
pub const MAX_RECORD_NAME_BYTES: usize = 64;

/// The number that no node gets: a creation is refused if it would be the next number.
pub const LAST_NODE: usize = 4_294_967_295;

/// The maximum number of names in one listing.
pub const MAX_LISTED: usize = 128;

/// The maximum number of handles that are open at once.
pub const MAX_HANDLES: usize = 4096;

/// The maximum number of handles that one caller may ever open.
pub const MAX_OPENS: usize = 4_294_967_295;
