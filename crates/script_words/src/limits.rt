//! The limits of words. A limit that a mount has too is the mount's.

// The maximum number of parts of a path.
pub(crate) const MAX_PARTS: usize = mount_limits::MAX_PARTS;

// The maximum number of bytes that a word spells.
pub(crate) const MAX_WORD_BYTES: usize = mount_limits::MAX_PART_BYTES;

// The length of a raw secret, in bytes.
pub(crate) const RAW_SECRET_BYTES: usize = 32;
