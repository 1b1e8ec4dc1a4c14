//! The limits of a mount that several crates use, each defined once.
#![tactic(auto)]

/// The number of bytes of a block of contents.
pub const BLOCK_SIZE: usize = 4096;

/// The maximal number of nodes of a mount, including the root and nodes without a name.
pub const MAX_NODES: usize = 65_536;

/// The maximal number of entries of a directory.
pub const MAX_CHILDREN: usize = 4096;

/// The maximal number of blocks of all files together.
pub const MAX_BLOCKS: usize = 16_384;

/// The maximal number of bytes of a file.
pub const MAX_FILE_BYTES: usize = 1_048_576;

/// The maximal number of bytes that one read may ask for.
pub const MAX_READ_BYTES: usize = 4096;

/// The maximal number of bytes that one write may carry.
pub const MAX_WRITE_BYTES: usize = 65_536;

/// The maximal number of bytes that a call may carry for a record: more than a record may have, so that
/// the mount itself refuses with TooBig.
pub const MAX_CARRIED_BYTES: usize = 9000;

/// The maximal number of parts of a path.
pub const MAX_PARTS: usize = 32;

/// The maximal number of bytes of a part: more than a name may have, so that the mount itself refuses
/// with NameTooLong.
pub const MAX_PART_BYTES: usize = 1000;

/// The maximal number of bytes of a raw key that a call may carry: more than any that is accepted, so
/// that the mount itself refuses a wrong length.
pub const MAX_RAW_BYTES: usize = 128;
