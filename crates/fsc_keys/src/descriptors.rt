//! The descriptor of a protector's key, by which the fscrypt tool recognizes a wrong key.

ghost use Rattle.std.specs.Prelude.{◌≡◌};
ghost use Rattle.fsc_keys.specs.Keys.{descriptor_of};

use sha2::{Digest, Sha512};

/// Returns 16 lower-case hexadecimal digits: the first 8 bytes of SHA-512 taken twice.
pub fn descriptor(key: &[u8]) -> [u8; 16]
    ensures { result ≡ descriptor_of key.now }
{
    let once = Sha512::digest(key);
    let twice = Sha512::digest(once);
    let mut digits = [0; 16];
    match hex::encode_to_slice(&twice[..8], &mut digits) {
        Ok(()) => digits,
        Err(_) => unreachable!(),
    }
}
