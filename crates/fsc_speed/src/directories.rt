//! What the directories of kernels have in common: the key under which they are encrypted, and parts of
//! their paths.
use fsc_keys::{RawKey, key_id};
use item_list::Bytes;
use mount_model::{Part, Path};
use policy_ctx::KeyId;
use std::alloc::{AllocError, Global};

/// The one name in the root.
pub(crate) const TOP: &[u8] = b"top";

/// The bytes of the key.
pub(crate) const RAW: [u8; 64] = [0x5a; 64];

/// The nonce of each node.
pub(crate) const NONCE: [u8; 16] = [7; 16];

/// Returns the identifier of the key.
pub(crate) fn id_of_key() -> KeyId {
    match RawKey::read(&RAW) {
        Ok(raw) => key_id(&raw),
        Err(_) => unreachable!(),
    }
}

/// Returns the policy under the key, with names that are padded to 32 bytes.
pub(crate) fn policy_of_key() -> [u8; 24] {
    let mut policy = [
        2, 1, 4, 3, 0, 0, 0, 0, 0, 0, 0, 0, 0, 0, 0, 0, 0, 0, 0, 0, 0, 0, 0, 0,
    ];
    policy[8..].copy_from_slice(&id_of_key().0);
    policy
}

/// Appends a part of these bytes.
pub(crate) fn push_part(path: &mut Path, alloc: Global, name: &[u8]) -> Result<(), AllocError> {
    let name = Bytes::from_vec(Vec::from_slice(alloc, name)?);
    path.push(Part::new(name))
}
