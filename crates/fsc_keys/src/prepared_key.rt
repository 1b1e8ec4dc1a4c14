//! A raw key with the result of HKDF's first step, for callers that derive many keys from it.

ghost use Rattle.std.specs.Prelude.{◌≡◌, ◌≤◌, ℕ, List, [], length, replicate};
ghost use Rattle.byte_words.specs.Bytes.{AreBytes};
ghost use Rattle.hmac_kdf.specs.Hmac.{hash_sha512};
ghost use Rattle.hmac_kdf.specs.Hkdf.{extracted};

use crate::derivations::{derive_file_key, derive_id, derive_mode_key, extract};
use crate::file_keys::{FileKey, KeyKind};
use crate::raw_key::{MAX_RAW_KEY_BYTES, MIN_RAW_KEY_BYTES, RawKey};
use hmac_kdf::Prk512;
use policy_ctx::KeyId;
use std::marker::Model;

/// A raw key with its pseudorandom key, as Linux stores it once a key is added. It is as secret as the
/// raw key: it can be wiped, and is never printed.
#[derive(Drop)]
pub struct PreparedKey {
    raw: RawKey,
    prk: Prk512,
}

impl Model for PreparedKey {
    ghost Value = { List ℕ };

    ghost view = { λ key. key.raw };

    ghost invariant = { λ key. key.prk ≡ extracted hash_sha512 [] key.raw };
}

impl PreparedKey {
    ghost use Rattle.fsc_keys.specs.Keys.{file_key_of, key_bytes, key_id_of, key_kind, mode_key_of};

    /// Returns the prepared key.
    pub fn new(raw: RawKey) -> PreparedKey
        ensures { result ≡ raw }
    {
        let prk = extract(&raw);
        PreparedKey { raw, prk }
    }

    /// Returns the bytes of the raw key: 32 to 64.
    pub fn bytes(&self) -> &[u8]
        ensures value { result.now ≡ self.now }
        ensures not_short { MIN_RAW_KEY_BYTES ≤ length result.now }
        ensures not_long { length result.now ≤ MAX_RAW_KEY_BYTES }
        ensures ranged { AreBytes result.now }
    {
        self.raw.bytes()
    }

    /// Returns the identifier of the key, by which policies and claims name it.
    pub fn id(&self) -> KeyId
        ensures { result ≡ key_id_of self.now }
    {
        derive_id(&self.prk)
    }

    /// Returns the key of the file with this nonce, for its contents or for its names.
    pub fn file_key(&self, kind: KeyKind, nonce: &[u8; 16]) -> FileKey
        ensures key { result ≡ file_key_of self.now kind nonce.now }
        ensures ranged { AreBytes (key_bytes result) }
    {
        let mut key = FileKey::zeros(kind);
        derive_file_key(&self.prk, nonce, &mut key);
        key
    }

    /// Writes the key of the file with this nonce over another of the same kind, so that it is nowhere
    /// else.
    pub fn write_file_key(&self, nonce: &[u8; 16], key: &mut FileKey)
        ensures key { key.new ≡ file_key_of self.now (key_kind key.old) nonce.now }
        ensures ranged { AreBytes (key_bytes key.new) }
    {
        derive_file_key(&self.prk, nonce, key);
    }

    /// Returns the key that all nodes of this kind share under a policy with a key for each mode.
    pub fn mode_key(&self, kind: KeyKind) -> FileKey
        ensures key { result ≡ mode_key_of self.now kind }
        ensures ranged { AreBytes (key_bytes result) }
    {
        let mut key = FileKey::zeros(kind);
        derive_mode_key(&self.prk, &mut key);
        key
    }

    /// Writes the key that all nodes of a kind share over another of that kind.
    pub fn write_mode_key(&self, key: &mut FileKey)
        ensures key { key.new ≡ mode_key_of self.now (key_kind key.old) }
        ensures ranged { AreBytes (key_bytes key.new) }
    {
        derive_mode_key(&self.prk, key);
    }

    /// Replaces the key by zeros, and what was prepared by what is prepared of them. It is then the key
    /// of as many zeros.
    pub fn wipe(&mut self)
        ensures { self.new ≡ replicate (length self.old) 0 }
    {
        self.raw.wipe();
        self.prk.replace(&[], self.raw.bytes());
    }
}
