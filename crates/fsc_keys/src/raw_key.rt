//! A raw master key of 32 to 64 bytes.

ghost use Rattle.std.specs.Prelude.{◌≡◌, ◌↔◌, ◌≤◌, ℕ, List, length, replicate, IsOk, IfOk, IfErr, OnOk, OnErr};
ghost use Rattle.byte_words.specs.Bytes.{AreBytes};

use short_bytes::Filled;
use std::marker::Model;
use thiserror::Error;

/// The minimum length of a raw key in bytes: what AES-256 needs.
pub const MIN_RAW_KEY_BYTES: usize = 32;

/// The maximum length of a raw key in bytes, as Linux has it.
pub const MAX_RAW_KEY_BYTES: usize = 64;

/// Bytes that are no raw key, since they are fewer than 32 or more than 64.
#[derive(Clone, Copy, Debug, PartialEq, Eq, Error)]
#[error("a raw key has 32 to 64 bytes, and not {len}")]
pub struct KeySize {
    pub len: usize,
}

/// A raw master key of 32 to 64 bytes. It can be wiped, and is never printed.
#[derive(Drop)]
pub struct RawKey {
    bytes: Filled<MAX_RAW_KEY_BYTES>,
}

impl Model for RawKey {
    ghost use Rattle.std.specs.Prelude.{◌≤◌, ℕ, List, length};
    ghost use Rattle.fsc_keys.specs.declared.raw_key.TheConstants.{MIN_RAW_KEY_BYTES};

    ghost Value = { List ℕ };

    ghost view = { λ key. key.bytes };

    ghost invariant = { λ key. MIN_RAW_KEY_BYTES ≤ length key.bytes };
}

impl RawKey {
    /// Returns the key of these bytes. Fewer than 32 or more than 64 are refused, with their number.
    pub fn read(bytes: &[u8]) -> Result<RawKey, KeySize>
        ensures value { IfOk result (λ key. key ≡ bytes.now) }
        ensures ok_in_range { IsOk result
            ↔ ((MIN_RAW_KEY_BYTES ≤ length bytes.now) × (length bytes.now ≤ MAX_RAW_KEY_BYTES)) }
        ensures refused { IfErr result (λ fault. fault.len ≡ length bytes.now) }
    {
        check_size(bytes)?;
        Ok(RawKey {
            bytes: Filled::of(bytes),
        })
    }

    /// Returns the key of 32 zeros: a buffer for another key.
    pub fn zeros() -> RawKey
        ensures { result ≡ replicate MIN_RAW_KEY_BYTES 0 }
    {
        RawKey {
            bytes: Filled::of(&[0; MIN_RAW_KEY_BYTES]),
        }
    }

    /// Replaces the key by the key of these bytes; the one before is wiped in place. Fewer than 32 or
    /// more than 64 bytes are refused, with their number, and then the key is as before.
    pub fn set(&mut self, bytes: &[u8]) -> Result<(), KeySize>
        ensures value { OnOk result (self.new ≡ bytes.now) }
        ensures ok_in_range { IsOk result
            ↔ ((MIN_RAW_KEY_BYTES ≤ length bytes.now) × (length bytes.now ≤ MAX_RAW_KEY_BYTES)) }
        ensures refused { IfErr result (λ fault. fault.len ≡ length bytes.now) }
        ensures kept { OnErr result (self.new ≡ self.old) }
    {
        check_size(bytes)?;
        self.bytes.set(bytes);
        Ok(())
    }

    /// Returns a copy of the key.
    pub fn copy(&self) -> RawKey
        ensures { result ≡ self.now }
    {
        RawKey { bytes: self.bytes }
    }

    /// Returns the bytes of the key.
    pub fn bytes(&self) -> &[u8]
        ensures value { result.now ≡ self.now }
        ensures not_short { MIN_RAW_KEY_BYTES ≤ length result.now }
        ensures not_long { length result.now ≤ MAX_RAW_KEY_BYTES }
        ensures ranged { AreBytes result.now }
    {
        self.bytes.bytes()
    }

    /// Replaces the key by zeros. It is then the key of as many zeros.
    pub fn wipe(&mut self)
        ensures { self.new ≡ replicate (length self.old) 0 }
    {
        self.bytes.wipe();
    }
}

// Refuses bytes that are too few or too many for a raw key.
fn check_size(bytes: &[u8]) -> Result<(), KeySize>
    ensures ok_in_range { IsOk result
        ↔ ((MIN_RAW_KEY_BYTES ≤ length bytes.now) × (length bytes.now ≤ MAX_RAW_KEY_BYTES)) }
    ensures refused { IfErr result (λ fault. fault.len ≡ length bytes.now) }
{
    if bytes.len() < MIN_RAW_KEY_BYTES || bytes.len() > MAX_RAW_KEY_BYTES {
        return Err(KeySize { len: bytes.len() });
    }
    Ok(())
}
