//! The text by which a stored name is shown and found if its key is absent.

ghost use Rattle.std.specs.Prelude.{◌≡◌, ◌<◌, ◌≤◌, ◌↔◌, ◌++◌, ℕ, List, length, take, drop, replicate, IsTrue};
ghost use Rattle.base64.specs.Engines.{url_safe_no_pad};
ghost use Rattle.base64.specs.GeneralPurpose.{encode_of};
ghost use Rattle.sha2.specs.Sha256.{sha256};
ghost use Rattle.name_crypt.specs.declared.limits.TheConstants.{MAX_TEXT_CHARACTERS};
ghost use Rattle.name_crypt.specs.NoKeyText.{nokey_text_of, visible_bytes};

use crate::limits::{MAX_NAME_BYTES, MAX_SPELLED_BYTES, MAX_TEXT_CHARACTERS};
use crate::stored::StoredName;
use base64::engine::general_purpose::URL_SAFE_NO_PAD;
use sha2::{Digest, Sha256};
use short_bytes::Filled;
use std::marker::Model;

/// The no-key text of a stored name: at most 252 characters.
#[derive(Clone, Copy, Debug, PartialEq, Eq, Hash)]
pub struct NoKeyText {
    characters: Filled<MAX_TEXT_CHARACTERS>,
}

impl Model for NoKeyText {
    ghost Value = { List ℕ };

    ghost view = { λ text. text.characters };

    ghost invariant = { λ text. length text.characters ≤ MAX_TEXT_CHARACTERS };

    ghost inverse = { λ bytes. record { characters = bytes } };
}

impl NoKeyText {
    /// Returns the characters, each of one byte.
    pub fn bytes(&self) -> &[u8]
        ensures value { result.now ≡ self.now }
        ensures bound { length result.now ≤ MAX_TEXT_CHARACTERS }
    {
        self.characters.bytes()
    }
}

/// Returns the text by which the stored name is shown: base64url of eight zeros and the name, if it has
/// at most 149 bytes. For a longer name it is base64url of eight zeros, its first 149 bytes and the
/// SHA-256 of the others.
pub fn nokey_text(stored: &StoredName) -> NoKeyText
    ensures { result ≡ nokey_text_of stored.now }
{
    let source = encoded_bytes(stored.bytes());
    let mut characters = [0; MAX_TEXT_CHARACTERS];
    let Ok(len) = URL_SAFE_NO_PAD.encode_slice(source.bytes(), &mut characters) else {
        unreachable!();
    };
    NoKeyText {
        characters: Filled::of(&characters[..len]),
    }
}

// The bytes that the text encodes.
fn encoded_bytes(stored: &[u8]) -> Filled<189>
    requires { length stored.now ≤ MAX_NAME_BYTES }
    ensures { result ≡ replicate 8 0 ++ visible_bytes stored.now }
{
    let mut bytes = Filled::of(&[0; 8]);
    if stored.len() <= MAX_SPELLED_BYTES {
        bytes.append(stored);
    } else {
        let (spelled, hashed) = stored.split_at(MAX_SPELLED_BYTES);
        bytes.append(spelled);
        bytes.append(&Sha256::digest(hashed));
    }
    bytes
}

/// Returns whether the text is the no-key text of the stored name. The text isn't built. Symbols are made
/// 32 at a time and compared until one differs, and the hash is computed only if all symbols before it
/// agree.
pub fn nokey_matches(text: &[u8], stored: &StoredName) -> bool
    ensures { IsTrue result ↔ (text.now ≡ nokey_text_of stored.now) }
{
    let bytes = stored.bytes();
    if bytes.len() <= MAX_SPELLED_BYTES {
        return is_spelled_part(text, bytes);
    }
    is_hashed_text(text, bytes)
}

// The same for a stored name of more than 149 bytes. 8 zeros and the first 148 bytes are 52 groups of
// three, so their 208 symbols can be compared before the hash is computed.
fn is_hashed_text(text: &[u8], stored: &[u8]) -> bool
    requires { MAX_SPELLED_BYTES < length stored.now }
    ensures { IsTrue result ↔ (text.now ≡ encode_of url_safe_no_pad (replicate 8 0
        ++ (take MAX_SPELLED_BYTES stored.now ++ sha256 (drop MAX_SPELLED_BYTES stored.now)))) }
{
    if text.len() < 208 {
        return false;
    }
    let (front, back) = text.split_at(208);
    let (first, others) = stored.split_at(148);
    if !is_spelled_part(front, first) {
        return false;
    }
    is_hashed_part(back, others)
}

// Whether the text is the base64url of eight zeros and these bytes.
fn is_spelled_part(text: &[u8], first: &[u8]) -> bool
    requires { length first.now ≤ MAX_SPELLED_BYTES }
    ensures { IsTrue result ↔ (text.now ≡ encode_of url_safe_no_pad (replicate 8 0 ++ first.now)) }
{
    let mut source = Filled::<157>::of(&[0; 8]);
    source.append(first);
    is_encoding(text, source.bytes())
}

// Whether the text is the base64url of the first byte and the SHA-256 of the others.
fn is_hashed_part(text: &[u8], bytes: &[u8]) -> bool
    requires { 1 ≤ length bytes.now }
    ensures { IsTrue result ↔ (text.now ≡ encode_of url_safe_no_pad (take 1 bytes.now
        ++ sha256 (drop 1 bytes.now))) }
{
    let (last, hashed) = bytes.split_at(1);
    let mut source = Filled::<33>::of(last);
    source.append(&Sha256::digest(hashed));
    is_encoding(text, source.bytes())
}

// Whether the text is the base64url of the bytes.
fn is_encoding(mut text: &[u8], mut bytes: &[u8]) -> bool
    ensures { IsTrue result ↔ (text.entry.now ≡ encode_of url_safe_no_pad bytes.entry.now) }
{
    while bytes.len() > 24 {
        if text.len() < 32 || !is_short_encoding(&text[..32], &bytes[..24]) {
            return false;
        }
        text = &text[32..];
        bytes = &bytes[24..];
    }
    is_short_encoding(text, bytes)
}

// The same of at most 24 bytes, which make at most 32 symbols.
fn is_short_encoding(text: &[u8], bytes: &[u8]) -> bool
    requires { length bytes.now ≤ 24 }
    ensures { IsTrue result ↔ (text.now ≡ encode_of url_safe_no_pad bytes.now) }
{
    let mut symbols = [0; 32];
    let Ok(len) = URL_SAFE_NO_PAD.encode_slice(bytes, &mut symbols) else {
        unreachable!();
    };
    text == &symbols[..len]
}
