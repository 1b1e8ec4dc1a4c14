//! The limits of the cache.

/// The maximal number of cached names.
pub const MAX_CACHED_NAMES: usize = 256;

/// The maximal length of a cached name in bytes: that of any name.
pub const MAX_CACHED_NAME_BYTES: usize = 255;
