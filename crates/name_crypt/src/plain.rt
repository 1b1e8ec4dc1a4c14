//! Plain names and targets.

ghost use Rattle.std.specs.Prelude.{◌≡◌, ◌<◌, ◌≤◌, ◌↔◌, ◌⊎◌, ℕ, List, length, Contains};
ghost use Rattle.std.specs.Prelude.{IsOk, IsTrue, IfOk, IsErrOf};
ghost use Rattle.byte_words.specs.Bytes.{AreBytes};
ghost use Rattle.name_crypt.specs.Plain.{IsPlain};

use crate::limits::MAX_NAME_BYTES;
use short_bytes::Filled;
use std::marker::Model;
use thiserror::Error;

/// A name of a directory's entry, or a symlink's target: 1 to 255 bytes, none of them NUL.
#[derive(Clone, Copy, Debug, PartialEq, Eq, Hash)]
pub struct Plain {
    bytes: Filled<MAX_NAME_BYTES>,
}

impl Model for Plain {
    ghost Value = { List ℕ };

    ghost view = { λ name. name.bytes };

    ghost invariant = { λ name. IsPlain name.bytes };

    ghost inverse = { λ bytes. record { bytes = bytes } };
}

/// Why bytes are no plain name.
#[derive(Clone, Copy, Debug, PartialEq, Eq, Error)]
pub enum PlainFault {
    /// There are no bytes, or more than 255.
    #[error("a name has 1 to 255 bytes")]
    Length,
    /// One of them is NUL.
    #[error("a name has no NUL")]
    Nul,
}

/// Returns whether the bytes are a plain name or target: 1 to 255, none of them NUL.
pub fn is_plain(bytes: &[u8]) -> bool
    ensures { IsTrue result ↔ IsPlain bytes.now }
{
    !bytes.is_empty() && bytes.len() <= MAX_NAME_BYTES && !bytes.contains(&0)
}

impl Plain {
    /// Returns the name of these bytes. Returns `Length` if there are none or more than 255, and
    /// otherwise `Nul` if one of them is NUL.
    pub fn read(bytes: &[u8]) -> Result<Plain, PlainFault>
        ensures value { IfOk result (λ name. name ≡ bytes.now) }
        ensures plain { IsOk result ↔ IsPlain bytes.now }
        ensures length { IsErrOf result PlainFault.Length
            ↔ ((length bytes.now ≡ 0) ⊎ (MAX_NAME_BYTES < length bytes.now)) }
        ensures nul { IsErrOf result PlainFault.Nul ↔ ((1 ≤ length bytes.now)
            × (length bytes.now ≤ MAX_NAME_BYTES) × Contains bytes.now 0) }
    {
        if bytes.is_empty() || bytes.len() > MAX_NAME_BYTES {
            return Err(PlainFault::Length);
        }
        if bytes.contains(&0) {
            return Err(PlainFault::Nul);
        }
        Ok(Plain {
            bytes: Filled::of(bytes),
        })
    }

    /// Returns the bytes of the name.
    pub fn bytes(&self) -> &[u8]
        ensures value { result.now ≡ self.now }
        ensures plain { IsPlain result.now }
        ensures ranged { AreBytes result.now }
    {
        self.bytes.bytes()
    }
}
