//! The words for keys and for other bytes: hexadecimal digits of either case.

ghost use Rattle.std.specs.Prelude.{◌≡◌, ◌*◌, ◌<◌, ◌^◌, IfOk};
ghost use Rattle.script_words.specs.Keys as spec;

use fsc_keys::{KeyId, MAX_RAW_KEY_BYTES, MIN_RAW_KEY_BYTES, RawKey};
use item_list::Bytes;
use std::alloc::{AllocError, Global};
use text_words::{hex_bytes, hex_bytes_into};

/// A key: by its identifier, or by its bytes, which determine their identifier.
#[derive(Drop)]
pub enum KeyRef {
    Id(KeyId),
    Raw(RawKey),
}

/// Returns the bytes that the digits spell, if they are `least` to `most` bytes in two digits each; else
/// `None`.
pub fn read_hex(
    alloc: Global,
    word: &[u8],
    least: usize,
    most: usize,
) -> Result<Option<Bytes>, AllocError>
    requires least_fits { 2 * least < 2 ^ 64 }
    requires most_fits { 2 * most < 2 ^ 64 }
    ensures { IfOk result (λ bytes. bytes ≡ spec.hex_of_size least most word.now) }
{
    if word.len() < 2 * least || word.len() > 2 * most {
        return Ok(None);
    }
    let mut bytes = vec![in alloc; 0; word.len() / 2]?;
    if !hex_bytes_into(word, bytes.as_mut_slice()) {
        return Ok(None);
    }
    Ok(Some(Bytes::from_vec(bytes)))
}

/// Returns the 1 to `most` bytes that the digits spell, or no bytes for `-`; else `None`.
pub fn read_hex_or_none(
    alloc: Global,
    word: &[u8],
    most: usize,
) -> Result<Option<Bytes>, AllocError>
    requires { 2 * most < 2 ^ 64 }
    ensures { IfOk result (λ bytes. bytes ≡ spec.hex_or_none most word.now) }
{
    if word == b"-".as_slice() {
        return Ok(Some(Bytes::new(alloc)));
    }
    read_hex(alloc, word, 1, most)
}

/// Returns the key that the word names, if it names one.
pub fn read_key_ref(word: &[u8]) -> Option<KeyRef>
    ensures { result ≡ spec.key_ref_of word.now }
{
    if word.starts_with(b"id:") {
        return read_id(&word[3..]).map(KeyRef::Id);
    }
    if word.starts_with(b"raw:") {
        return read_raw_key(&word[4..]).map(KeyRef::Raw);
    }
    None
}

fn read_id(digits: &[u8]) -> Option<KeyId>
    ensures { result ≡ spec.id_of digits.now }
{
    hex_bytes(digits).map(KeyId)
}

fn read_raw_key(digits: &[u8]) -> Option<RawKey>
    ensures { result ≡ spec.raw_key_of digits.now }
{
    if digits.len() < 2 * MIN_RAW_KEY_BYTES || digits.len() > 2 * MAX_RAW_KEY_BYTES {
        return None;
    }
    let mut bytes = [0; MAX_RAW_KEY_BYTES];
    let bytes = &mut bytes[..digits.len() / 2];
    if !hex_bytes_into(digits, bytes) {
        return None;
    }
    RawKey::read(bytes).ok()
}
