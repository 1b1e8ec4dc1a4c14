//! How long names and their texts are.

/// The maximal number of bytes of a name or a target, plain or stored.
pub const MAX_NAME_BYTES: usize = 255;

/// The minimal number of bytes of a stored name: a block of AES.
pub const MIN_STORED_BYTES: usize = 16;

/// The maximal number of bytes of a stored name that its no-key text spells. For a longer name the text
/// has the hash of the others.
pub const MAX_SPELLED_BYTES: usize = 149;

/// The maximal number of bytes that a no-key text shows of a stored name: those that it spells, and a
/// hash.
pub const MAX_VISIBLE_BYTES: usize = MAX_SPELLED_BYTES + 32;

/// The maximal number of characters of a no-key text.
pub const MAX_TEXT_CHARACTERS: usize = 252;
