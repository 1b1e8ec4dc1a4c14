//! What is derived from a raw key once: its identifier, and the keys of files.

ghost use Rattle.std.specs.Prelude.{◌≡◌};
ghost use Rattle.byte_words.specs.Bytes.{AreBytes};
ghost use Rattle.fsc_keys.specs.Keys.{file_key_of, key_bytes, key_id_of, mode_key_of, zero_key, zeros_for};

use crate::derivations::{derive_file_key, derive_id, derive_mode_key, extract};
use crate::raw_key::RawKey;
use byte_words::wipe;
use policy_ctx::KeyId;

/// The kind of a file key, by what it encrypts.
#[derive(Clone, Copy, Debug, PartialEq, Eq)]
pub enum KeyKind {
    /// The contents of a regular file.
    Contents,
    /// The names in a directory, or a symlink's target.
    Names,
}

/// The key of one file, directory or symlink, or of all that share one.
#[derive(Clone, Drop)]
pub enum FileKey {
    /// Two keys of AES-256, as XTS takes them.
    Contents([u8; 64]),
    /// One key of AES-256.
    Names([u8; 32]),
}

impl FileKey {
    /// Returns the key of this kind whose bytes are zeros: a buffer for another key.
    pub fn zeros(kind: KeyKind) -> FileKey
        ensures { result ≡ zero_key kind }
    {
        match kind {
            KeyKind::Contents => FileKey::Contents([0; 64]),
            KeyKind::Names => FileKey::Names([0; 32]),
        }
    }

    /// Wipes the key in place: 64 zeros for contents, 32 for names.
    pub fn wipe(&mut self)
        ensures { self.new ≡ zeros_for self.old }
    {
        match self {
            FileKey::Contents(bytes) => wipe(bytes),
            FileKey::Names(bytes) => wipe(bytes),
        }
    }
}

/// Returns the identifier of a raw key, by which policies and claims name it.
pub fn key_id(raw: &RawKey) -> KeyId
    ensures { result ≡ key_id_of raw.now }
{
    derive_id(&extract(raw))
}

/// Returns the key of the file with this nonce, for its contents or for its names. A caller that derives
/// several keys should prepare the raw key (`PreparedKey`), at a quarter of the work.
pub fn file_key(raw: &RawKey, kind: KeyKind, nonce: &[u8; 16]) -> FileKey
    ensures key { result ≡ file_key_of raw.now kind nonce.now }
    ensures ranged { AreBytes (key_bytes result) }
{
    let mut key = FileKey::zeros(kind);
    derive_file_key(&extract(raw), nonce, &mut key);
    key
}

/// Returns the key that all nodes of this kind share under a policy with a key for each mode.
pub fn mode_key(raw: &RawKey, kind: KeyKind) -> FileKey
    ensures key { result ≡ mode_key_of raw.now kind }
    ensures ranged { AreBytes (key_bytes result) }
{
    let mut key = FileKey::zeros(kind);
    derive_mode_key(&extract(raw), &mut key);
    key
}
