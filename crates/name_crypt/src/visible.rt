//! What a no-key text shows of its stored name.

ghost use Rattle.std.specs.Prelude.{◌≡◌, ◌↔◌, IsTrue};
ghost use Rattle.name_crypt.specs.NoKeyText.{visible_bytes, HasVisibleBytes};

use crate::limits::{MAX_SPELLED_BYTES, MAX_TEXT_CHARACTERS, MAX_VISIBLE_BYTES};
use base64::engine::general_purpose::URL_SAFE_NO_PAD;
use sha2::{Digest, Sha256};
use short_bytes::Filled;

/// The maximal number of bytes that a no-key text encodes: eight zeros, and what it shows.
const MAX_ENCODED_BYTES: usize = 8 + MAX_VISIBLE_BYTES;

/// Returns what the text shows of a stored name: the name whole, if it has at most 149 bytes, and
/// otherwise its first 149 bytes and the SHA-256 of the others. Returns `None` only if no stored name has
/// the text.
pub fn shown_by(text: &[u8]) -> Option<Filled<MAX_VISIBLE_BYTES>>
    ensures { HasVisibleBytes text.now result }
{
    if text.len() > MAX_TEXT_CHARACTERS {
        return None;
    }
    let mut bytes = [0; MAX_ENCODED_BYTES];
    let Ok(len) = URL_SAFE_NO_PAD.decode_slice_unchecked(text, &mut bytes) else {
        return None;
    };
    match bytes[..len].strip_prefix(&[0; 8]) {
        Some(shown) => Some(Filled::of(shown)),
        None => None,
    }
}

/// Returns whether this is what the text of the stored name shows. The hash is computed only if the bytes
/// before it agree.
pub fn has_visible_name(stored: &[u8], shown: &[u8]) -> bool
    ensures { IsTrue result ↔ (shown.now ≡ visible_bytes stored.now) }
{
    if stored.len() <= MAX_SPELLED_BYTES {
        return shown == stored;
    }
    let (spelled, hashed) = stored.split_at(MAX_SPELLED_BYTES);
    match shown.strip_prefix(spelled) {
        Some(digest) => digest == Sha256::digest(hashed).as_slice(),
        None => false,
    }
}
