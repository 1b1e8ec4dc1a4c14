//! A mode key as it is stored, with the number of its users.

use fsc_keys::FileKey;

/// The key of a mode under one identifier, and how many users it has.
#[derive(Drop)]
pub struct ModeKey {
    pub key: FileKey,
    pub users: u32,
}
