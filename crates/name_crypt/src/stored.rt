//! Names and targets as they are stored in a directory under a policy: encrypted.

ghost use Rattle.std.specs.Prelude.{◌≡◌, ◌<◌, ◌↔◌, ◌⊎◌, ℕ, List, length, IsErr, IfOk};
ghost use Rattle.byte_words.specs.Bytes.{AreBytes};
ghost use Rattle.name_crypt.specs.Plain.{IsStored};

use crate::limits::{MAX_NAME_BYTES, MIN_STORED_BYTES};
use short_bytes::Filled;
use std::marker::Model;
use thiserror::Error;

/// An encrypted name or target: 16 to 255 bytes.
#[derive(Clone, Copy, Debug, PartialEq, Eq, Hash)]
pub struct StoredName {
    bytes: Filled<MAX_NAME_BYTES>,
}

impl Model for StoredName {
    ghost Value = { List ℕ };

    ghost view = { λ name. name.bytes };

    ghost invariant = { λ name. IsStored name.bytes };

    ghost inverse = { λ bytes. record { bytes = bytes } };
}

/// The bytes are not a stored name: there are fewer than 16, or more than 255.
#[derive(Clone, Copy, Debug, PartialEq, Eq, Error)]
#[error("a stored name has 16 to 255 bytes")]
pub struct StoredLength;

impl StoredName {
    /// Returns the stored name of these bytes, or `StoredLength` if there are fewer than 16 or more than
    /// 255.
    pub fn read(bytes: &[u8]) -> Result<StoredName, StoredLength>
        ensures value { IfOk result (λ name. name ≡ bytes.now) }
        ensures length { IsErr result ↔ ((length bytes.now < MIN_STORED_BYTES)
            ⊎ (MAX_NAME_BYTES < length bytes.now)) }
    {
        if bytes.len() < MIN_STORED_BYTES || bytes.len() > MAX_NAME_BYTES {
            return Err(StoredLength);
        }
        Ok(StoredName::of(bytes))
    }

    // The stored name of bytes that are known to be a stored name's.
    pub(crate) fn of(bytes: &[u8]) -> StoredName
        requires { IsStored bytes.now }
        ensures { result ≡ bytes.now }
    {
        StoredName {
            bytes: Filled::of(bytes),
        }
    }

    /// Returns the bytes of the stored name.
    pub fn bytes(&self) -> &[u8]
        ensures value { result.now ≡ self.now }
        ensures stored { IsStored result.now }
        ensures ranged { AreBytes result.now }
    {
        self.bytes.bytes()
    }
}
