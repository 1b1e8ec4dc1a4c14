//! HKDF-SHA512 in the contexts of Linux fscrypt (fs/crypto/hkdf.c), from the extracted key on.

ghost use Rattle.std.specs.Prelude.{◌≡◌, ℕ, List, []};
ghost use Rattle.byte_words.specs.Bytes.{AreBytes};
ghost use Rattle.hmac_kdf.specs.Hmac.{hash_sha512};
ghost use Rattle.hmac_kdf.specs.Hkdf.{extracted};
ghost use Rattle.fsc_keys.specs.Derivations.{expanded_key};
ghost use Rattle.fsc_keys.specs.Keys.{file_key_of, key_bytes, key_id_of, key_kind, mode_key_of};

use crate::file_keys::FileKey;
use crate::raw_key::RawKey;
use byte_words::slice_is_bytes;
use hmac_kdf::Prk512;
use policy_ctx::KeyId;

/// The info for deriving identifiers: `fscrypt`, a zero byte, and the context 1.
const KEY_ID_INFO: [u8; 9] = *b"fscrypt\0\x01";

/// The info for deriving file keys, before the nonce: the context is 2.
const FILE_KEY_INFO: [u8; 9] = *b"fscrypt\0\x02";

/// The info for deriving the mode key for contents: the context 4, the mode's number, and the UUID that
/// each mount of fsc has.
const CONTENTS_MODE_INFO: [u8; 26] = *b"fscrypt\0\x04\x01fsc-memory-mount";

/// The same for names.
const NAMES_MODE_INFO: [u8; 26] = *b"fscrypt\0\x04\x04fsc-memory-mount";

// The pseudorandom key of a raw key: HKDF-Extract without salt.
pub(crate) fn extract(raw: &RawKey) -> Prk512
    ensures { result ≡ extracted hash_sha512 [] raw.now }
{
    Prk512::extract(&[], raw.bytes())
}

// The identifier of the raw key from which `prk` was extracted.
#[tactic(auto, unfolding(crate::specs::Keys::derived, crate::specs::Keys::key_id_of, hmac_kdf::specs::Hkdf::hkdf_with))]
pub(crate) fn derive_id(prk: &Prk512) -> KeyId
    ensures { (raw : List ℕ) → prk.now ≡ extracted hash_sha512 [] raw → result ≡ key_id_of raw }
{
    let mut id = [0; 16];
    prk.expand(&KEY_ID_INFO, &mut id);
    KeyId(id)
}

// Derives the key of the file with this nonce, and writes it over another of its kind.
#[tactic(auto, unfolding(crate::specs::Keys::derived, hmac_kdf::specs::Hkdf::hkdf_with))]
pub(crate) fn derive_file_key(prk: &Prk512, nonce: &[u8; 16], key: &mut FileKey)
    ensures key { (raw : List ℕ) → prk.now ≡ extracted hash_sha512 [] raw
        → key.new ≡ file_key_of raw (key_kind key.old) nonce.now }
    ensures ranged { AreBytes (key_bytes key.new) }
{
    let mut info = [0; 25];
    info[..9].copy_from_slice(&FILE_KEY_INFO);
    info[9..].copy_from_slice(nonce);
    draw(prk, &info, key);
}

// Derives the key that all nodes of its kind share, and writes it over another.
#[tactic(auto, unfolding(crate::specs::Keys::derived, hmac_kdf::specs::Hkdf::hkdf_with))]
pub(crate) fn derive_mode_key(prk: &Prk512, key: &mut FileKey)
    ensures key { (raw : List ℕ) → prk.now ≡ extracted hash_sha512 [] raw
        → key.new ≡ mode_key_of raw (key_kind key.old) }
    ensures ranged { AreBytes (key_bytes key.new) }
{
    match key {
        FileKey::Contents(_) => draw(prk, &CONTENTS_MODE_INFO, key),
        FileKey::Names(_) => draw(prk, &NAMES_MODE_INFO, key),
    }
}

// Expands as many bytes as the key has under this info, and writes them over it in place.
fn draw(prk: &Prk512, info: &[u8], key: &mut FileKey)
    ensures key { key.new ≡ expanded_key prk.now (key_kind key.old) info.now }
    ensures ranged { AreBytes (key_bytes key.new) }
{
    match key {
        FileKey::Contents(bytes) => {
            prk.expand(info, bytes);
            slice_is_bytes(bytes);
        }
        FileKey::Names(bytes) => {
            prk.expand(info, bytes);
            slice_is_bytes(bytes);
        }
    }
}
