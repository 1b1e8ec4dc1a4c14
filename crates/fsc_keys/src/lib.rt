//! Raw master keys, and what is derived from them: identifiers, file keys, the keys of modes, and the
//! descriptors of protectors' keys.
#![tactic(auto)]

mod derivations;
mod descriptors;
mod file_keys;
mod prepared_key;
mod raw_key;

pub use descriptors::descriptor;
pub use file_keys::{FileKey, KeyKind, file_key, key_id, mode_key};
pub use policy_ctx::KeyId;
pub use prepared_key::PreparedKey;
pub use raw_key::{KeySize, MAX_RAW_KEY_BYTES, MIN_RAW_KEY_BYTES, RawKey};
