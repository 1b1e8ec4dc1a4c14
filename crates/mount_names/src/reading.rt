//! How the names of a directory, and the target of a symlink, are read.

ghost use Rattle.std.specs.Prelude.{◌≡◌, ◌≢◌, ◌≤◌, ℕ, List, [], ◌∷◌, ◌++◌, length, OnOk};
ghost use Rattle.name_crypt.specs.Plain.{IsStored};
ghost use Rattle.name_crypt.specs.StoredName.{plain_name};
ghost use Rattle.name_crypt.specs.NoKeyText.{nokey_text_of};
ghost use Rattle.mount_names.specs.VisibleNames.{ReadsAs, ShowsAs};
ghost use Rattle.mount_names.specs.WipedNames.{wiped};

use crate::ciphers::cipher_of;
use crate::contexts::context_at;
use crate::packed_names::PackedNames;
use mount_state::MountState;
use name_crypt::{
    MAX_NAME_BYTES, MIN_STORED_BYTES, NameCipher, StoredName, names_come_back, nokey_text,
};
use short_bytes::Filled;
use std::alloc::AllocError;

/// How stored names are read: as they are, decrypted, or by their no-key texts.
#[derive(Drop)]
pub(crate) enum Reading {
    Plain,
    Keyed(NameCipher),
    Locked,
}

// Returns how the names of the directory, or the target of the symlink, are read.
pub(crate) fn reading_of(state: &MountState, number: u32) -> Reading
    ensures { ReadsAs state.now number result }
{
    // That decrypting each stored name gives the name.
    names_come_back();
    let Some(context) = context_at(state, number) else {
        return Reading::Plain;
    };
    if !state.keyed(number) {
        return Reading::Locked;
    }
    match cipher_of(state, number, &context) {
        Some(cipher) => Reading::Keyed(cipher),
        None => Reading::Locked,
    }
}

impl Reading {
    // Wipes the key and its round keys, if there is one.
    pub(crate) fn wipe(&mut self)
        ensures { self.new ≡ wiped self.old }
    {
        if let Reading::Keyed(cipher) = self {
            cipher.wipe();
        }
    }

    // Returns the visible name of stored bytes that are the stored form of some name. Bytes that are no
    // stored name leave nothing in it.
    pub(crate) fn shown(&self, stored: &[u8]) -> Filled<MAX_NAME_BYTES>
        ensures { (name : List ℕ) → ShowsAs self.now stored.now name → result ≡ name }
    {
        match self {
            Reading::Plain => as_it_is(stored),
            Reading::Keyed(cipher) => decrypt_stored(cipher, stored),
            Reading::Locked => text_of(stored),
        }
    }
}

// Appends the visible name of stored bytes that are the stored form of some name. Bytes that are no stored
// name are not copied.
pub(crate) fn push_visible_name(
    names: &mut PackedNames,
    reading: &Reading,
    stored: &[u8],
) -> Result<(), AllocError>
    ensures { (name : List ℕ) → ShowsAs reading.now stored.now name
        → OnOk result (names.new ≡ names.old ++ name ∷ []) }
{
    match reading {
        Reading::Plain => names.push(stored),
        Reading::Keyed(cipher) => push_decrypted_name(names, cipher, stored),
        Reading::Locked => names.push(text_of(stored).bytes()),
    }
}

// Appends the name of a stored one; its no-key text if decrypting it gives none.
fn push_decrypted_name(
    names: &mut PackedNames,
    cipher: &NameCipher,
    stored: &[u8],
) -> Result<(), AllocError>
    ensures { IsStored stored.now → plain_name cipher.now.key cipher.now.start stored.now ≢ []
        → OnOk result (names.new ≡ names.old ++ plain_name cipher.now.key cipher.now.start stored.now ∷ []) }
{
    if stored.len() < MIN_STORED_BYTES || stored.len() > MAX_NAME_BYTES {
        return names.push(&[]);
    }
    if names.push_decrypted(cipher, stored)? {
        return Ok(());
    }
    names.push(text_of(stored).bytes())
}

// The bytes themselves.
fn as_it_is(stored: &[u8]) -> Filled<MAX_NAME_BYTES>
    ensures { length stored.now ≤ MAX_NAME_BYTES → result ≡ stored.now }
{
    match Filled::read(stored) {
        Some(name) => name,
        None => Filled::new(),
    }
}

// Returns the name of a stored one; its no-key text if decrypting it gives none.
fn decrypt_stored(cipher: &NameCipher, stored: &[u8]) -> Filled<MAX_NAME_BYTES>
    ensures { IsStored stored.now → plain_name cipher.now.key cipher.now.start stored.now ≢ []
        → result ≡ plain_name cipher.now.key cipher.now.start stored.now }
{
    let Ok(name) = StoredName::read(stored) else {
        return Filled::new();
    };
    match cipher.decrypt(&name) {
        Ok(plain) => as_it_is(plain.bytes()),
        Err(_) => text_of(stored),
    }
}

// Returns the no-key text of a stored name.
fn text_of(stored: &[u8]) -> Filled<MAX_NAME_BYTES>
    ensures { IsStored stored.now → result ≡ nokey_text_of stored.now }
{
    match StoredName::read(stored) {
        Ok(name) => as_it_is(nokey_text(&name).bytes()),
        Err(_) => Filled::new(),
    }
}
