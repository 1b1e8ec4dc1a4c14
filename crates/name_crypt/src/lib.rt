//! Names and targets: plain, stored under a key, and shown without the key.
#![tactic(auto)]

mod cipher;
mod encrypt;
mod limits;
mod name_laws;
mod nokey;
mod plain;
mod steps;
mod stored;
mod visible;

pub use aes_core::Aes256;
pub use cipher::{NameCipher, name_iv};
pub use encrypt::{
    NotPlain, decrypt_name, decrypt_name_with, encrypt_into, encrypt_name, encrypt_name_with,
};
pub use item_list::{Bytes, Items};
pub use limits::{
    MAX_NAME_BYTES, MAX_SPELLED_BYTES, MAX_TEXT_CHARACTERS, MAX_VISIBLE_BYTES, MIN_STORED_BYTES,
};
pub use name_laws::{names_come_back, texts_stay_distinct};
pub use nokey::{NoKeyText, nokey_matches, nokey_text};
pub use plain::{Plain, PlainFault, is_plain};
pub use steps::Steps;
pub use stored::{StoredLength, StoredName};
pub use visible::{has_visible_name, shown_by};
