//! From plain names to stored ones and back.

ghost use Rattle.std.specs.Prelude.{◌≡◌, ◌+◌, ◌-◌, ◌≤◌, ◌↔◌, IsErr, IfOk};
ghost use Rattle.std.specs.Prelude.{[], ◌++◌, length, take, drop, replicate};
ghost use Rattle.cts_mode.specs.Cts.{cts_decrypted};
ghost use Rattle.name_crypt.specs.Plain.{IsPlain, IsStored};
ghost use Rattle.name_crypt.specs.StoredName.{before_nul, padded_length, plain_name_with, stored_name_with};

use crate::limits::{MAX_NAME_BYTES, MIN_STORED_BYTES};
use crate::plain::Plain;
use crate::steps::Steps;
use crate::stored::StoredName;
use aes_core::Aes256;
use cts_mode::{cts_decrypt, cts_encrypt};
use policy_ctx::Pad;
use short_bytes::Filled;
use std::sync::ledger::Ledger;
use thiserror::Error;

/// The decrypted name begins with NUL, so the stored name was not made under this key.
#[derive(Clone, Copy, Debug, PartialEq, Eq, Error)]
#[error("the decrypted name is empty")]
pub struct NotPlain;

/// Returns the stored name of a name or target, under a names key of 32 bytes. `steps` counts one more.
pub fn encrypt_name<L: Ledger>(
    key: &[u8; 32],
    iv: [u8; 16],
    pad: Pad,
    name: &Plain,
    steps: &mut Steps<L>,
) -> StoredName
    ensures value { result ≡ stored_name_with key.now iv pad name.now }
    ensures tick { steps.new ≡ steps.old + 1 }
{
    encrypt_name_with(&Aes256::new(key), iv, pad, name, steps)
}

/// The same with round keys that were computed before, for several names under one key.
pub fn encrypt_name_with<L: Ledger>(
    key: &Aes256,
    iv: [u8; 16],
    pad: Pad,
    name: &Plain,
    steps: &mut Steps<L>,
) -> StoredName
    ensures value { result ≡ stored_name_with key.now iv pad name.now }
    ensures tick { steps.new ≡ steps.old + 1 }
{
    let mut text = [0; MAX_NAME_BYTES];
    let len = encrypt_into(key, iv, pad, name.bytes(), &mut text, steps);
    StoredName::of(&text[..len])
}

/// Writes the stored name of a plain name or target to the beginning of `text`, and returns its length:
/// 16 to 255 bytes. `text` must be zeros, and stays so after the stored name. The round keys are those of
/// a names key. `steps` counts one more.
pub fn encrypt_into<L: Ledger>(
    key: &Aes256,
    iv: [u8; 16],
    pad: Pad,
    name: &[u8],
    text: &mut [u8; MAX_NAME_BYTES],
    steps: &mut Steps<L>,
) -> usize
    requires plain { IsPlain name.now }
    requires zeros { text.old ≡ replicate MAX_NAME_BYTES 0 }
    ensures value { take result text.new ≡ stored_name_with key.now iv pad name.now }
    ensures stored { IsStored (take result text.new) }
    ensures least { MIN_STORED_BYTES ≤ result }
    ensures bound { result ≤ MAX_NAME_BYTES }
    ensures behind { drop result text.new ≡ replicate (MAX_NAME_BYTES - result) 0 }
    ensures tick { steps.new ≡ steps.old + 1 }
{
    steps.tick();
    let len = padded_length(pad, name.len());
    fill(text, name);
    cts_encrypt(key, iv, &mut text[..len]);
    len
}

/// Returns the name or target of a stored one, under a names key of 32 bytes: the decrypted bytes before
/// the first NUL. Returns `NotPlain` exactly when the first of them is NUL.
pub fn decrypt_name(key: &[u8; 32], iv: [u8; 16], stored: &StoredName) -> Result<Plain, NotPlain>
    ensures value { IfOk result (λ name. name ≡ plain_name_with key.now iv stored.now) }
    ensures not_plain { IsErr result ↔ (plain_name_with key.now iv stored.now ≡ []) }
{
    decrypt_name_with(&Aes256::new(key), iv, stored)
}

/// The same with round keys that were computed before, for several names under one key.
pub fn decrypt_name_with(key: &Aes256, iv: [u8; 16], stored: &StoredName) -> Result<Plain, NotPlain>
    ensures value { IfOk result (λ name. name ≡ plain_name_with key.now iv stored.now) }
    ensures not_plain { IsErr result ↔ (plain_name_with key.now iv stored.now ≡ []) }
{
    let bytes = decrypted_text(key, iv, stored);
    match Plain::read(before_nul(bytes.bytes())) {
        Ok(name) => Ok(name),
        Err(_) => Err(NotPlain),
    }
}

// Decrypts a stored name or target in place, and returns the length of the plain one, which is then at the
// beginning: the bytes before the first NUL. The round keys are those of a names key.
pub(crate) fn decrypt_in_place(key: &Aes256, iv: [u8; 16], text: &mut [u8]) -> usize
    requires stored { IsStored text.old }
    ensures value { take result text.new ≡ plain_name_with key.now iv text.old }
    ensures within { result ≤ length text.new }
    ensures size { length text.new ≡ length text.old }
{
    cts_decrypt(key, iv, text);
    name_end(text)
}

// The decrypted bytes of a stored name, with the NULs after the name.
fn decrypted_text(key: &Aes256, iv: [u8; 16], stored: &StoredName) -> Filled<MAX_NAME_BYTES>
    ensures { result ≡ cts_decrypted key.now iv stored.now }
{
    let mut text = [0; MAX_NAME_BYTES];
    let len = stored.bytes().len();
    fill(&mut text, stored.bytes());
    cts_decrypt(key, iv, &mut text[..len]);
    Filled::of(&text[..len])
}

// The length of the stored name of a name of this length.
fn padded_length(pad: Pad, len: usize) -> usize
    requires { len ≤ MAX_NAME_BYTES }
    ensures { result ≡ padded_length pad len }
{
    let size = pad.size();
    (len.max(MIN_STORED_BYTES).div_ceil(size) * size).min(MAX_NAME_BYTES)
}

// Writes the bytes to the beginning of the text.
fn fill(text: &mut [u8; MAX_NAME_BYTES], bytes: &[u8])
    requires { length bytes.now ≤ MAX_NAME_BYTES }
    ensures { text.new ≡ bytes.now ++ drop (length bytes.now) text.old }
{
    text[..bytes.len()].copy_from_slice(bytes);
}

// The bytes before the first NUL.
fn before_nul(bytes: &[u8]) -> &[u8]
    ensures { result.now ≡ before_nul bytes.now }
{
    &bytes[..name_end(bytes)]
}

// How many bytes are before the first NUL.
fn name_end(bytes: &[u8]) -> usize
    ensures value { take result bytes.now ≡ before_nul bytes.now }
    ensures within { result ≤ length bytes.now }
{
    bytes.iter().position(|b| *b == 0).unwrap_or(bytes.len())
}
