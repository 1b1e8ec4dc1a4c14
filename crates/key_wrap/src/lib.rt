//! Wrapping: a short secret encrypted and authenticated under a key of 32 bytes, without allocation, as the
//! fscrypt tool does for the keys that its protectors hold.
#![tactic(auto)]

mod counter;
mod stretched;

ghost use Rattle.std.specs.Prelude.{◌≡◌, ◌≤◌, IfErr, IfOk, None, Some, length};
ghost use Rattle.key_wrap.specs.Laws.{LengthStays, OpensAgain};
ghost use Rattle.key_wrap.specs.Wrapping.{opened_secret, wrapped_secret};

use crate::counter::xor_keystream;
use crate::stretched::StretchedKey;
use byte_words::is_same;
use hmac_kdf::hmac256;
use thiserror::Error;

/// The tag of a wrapped secret is not that of its key, iv and ciphertext: the key is another, or something
/// was changed.
#[derive(Clone, Copy, Debug, PartialEq, Eq, Error)]
#[error("the tag differs")]
pub struct TagDiffers;

/// Wraps a secret of at most 64 bytes. Writes its ciphertext into `out`, which has the same length, and
/// returns the tag of 32 bytes. The same iv under the same key must not wrap two secrets.
pub fn wrap(key: &[u8; 32], iv: &[u8; 16], secret: &[u8], out: &mut [u8]) -> [u8; 32]
    requires fits { length secret.now ≤ 64 }
    requires same_length { length out.old ≡ length secret.now }
    ensures ciphertext { out.new ≡ (wrapped_secret key.now iv.now secret.now).0 }
    ensures tag { result ≡ (wrapped_secret key.now iv.now secret.now).1 }
{
    let mut keys = StretchedKey::zeros();
    keys.set(key);
    out.copy_from_slice(secret);
    xor_keystream(keys.cipher(), iv, out);
    let tag = hmac256(keys.tag_key(), iv, out);
    keys.wipe();
    keys.end();
    tag
}

/// Writes the secret that was wrapped into `out`, which has the same length, at most 64 bytes. If the tag
/// differs from that of the iv and the ciphertext, returns `TagDiffers`, decrypts nothing, and leaves `out`
/// as it is. The tags are compared whole, whichever byte differs first.
pub fn unwrap(
    key: &[u8; 32],
    iv: &[u8; 16],
    wrapped: &[u8],
    tag: &[u8; 32],
    out: &mut [u8],
) -> Result<(), TagDiffers>
    requires fits { length wrapped.now ≤ 64 }
    requires same_length { length out.old ≡ length wrapped.now }
    ensures opened { IfOk result (λ _. opened_secret key.now iv.now wrapped.now tag.now ≡ Some out.new) }
    ensures refused { IfErr result (λ _. opened_secret key.now iv.now wrapped.now tag.now ≡ None) }
    ensures unchanged { IfErr result (λ _. out.new ≡ out.old) }
{
    let mut keys = StretchedKey::zeros();
    keys.set(key);
    if !is_same(tag, &hmac256(keys.tag_key(), iv, wrapped)) {
        keys.wipe();
        keys.end();
        return Err(TagDiffers);
    }
    out.copy_from_slice(wrapped);
    xor_keystream(keys.cipher(), iv, out);
    keys.wipe();
    keys.end();
    Ok(())
}

/// Does nothing. Its contract is the law that what was wrapped opens, under the same key and iv, to the
/// secret, and that the ciphertext has the secret's length.
pub fn unwrapping_undoes_wrapping()
    ensures opens { OpensAgain }
    ensures length { LengthStays }
{}
