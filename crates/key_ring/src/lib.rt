//! The ring of master keys: which users claim which key, and the secret of each key that has a claim; and
//! the keys of modes with their users.
#![tactic(auto)]

mod laws;
mod mode_key;
mod mode_keys;
mod ring;
mod secrets;

pub use fsc_keys::{FileKey, KeyId, KeyKind, PreparedKey, RawKey};
pub use laws::{a_ring_is_what_is_seen_of_it, mode_keys_are_what_is_seen_of_them};
pub use mode_key::ModeKey;
pub use mode_keys::ModeKeys;
pub use ring::KeyRing;
pub use user_claims::{ClaimFault, Claims};
