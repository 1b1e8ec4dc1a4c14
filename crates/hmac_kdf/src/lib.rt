//! HMAC (RFC 2104) and HKDF (RFC 5869) with SHA-256 and SHA-512, without allocation.
#![tactic(auto)]

ghost use Rattle.std.specs.Prelude.{◌≡◌, ◌≤◌, ◌++◌, ◌*◌, length};
ghost use Rattle.hmac_kdf.specs.Hmac.{hmac_sha256, hmac_sha512};
ghost use Rattle.hmac_kdf.specs.Hkdf.{hkdf_sha256, hkdf_sha512};

use derivation::derive;
use keyed::mac;
pub use laws::derived_keys_are_bytes;
pub use prepared::Prk512;
use sha2::{Sha256, Sha512};

mod derivation;
mod hash;
mod keyed;
mod laws;
mod prepared;

/// Returns HMAC-SHA-256 of the message `first ++ second` (RFC 2104). The key may have any length.
pub fn hmac256(key: &[u8], first: &[u8], second: &[u8]) -> [u8; 32]
    ensures { result ≡ hmac_sha256 key.now (first.now ++ second.now) }
{
    mac::<Sha256, 64, 32>(key, first, second)
}

/// Returns HMAC-SHA-512 of the message `first ++ second` (RFC 2104). The key may have any length.
pub fn hmac512(key: &[u8], first: &[u8], second: &[u8]) -> [u8; 64]
    ensures { result ≡ hmac_sha512 key.now (first.now ++ second.now) }
{
    mac::<Sha512, 128, 64>(key, first, second)
}

/// HKDF-SHA256 (RFC 5869): fills `out`, of at most 255 times 32 bytes, with output keying material. An
/// empty salt means none.
pub fn hkdf256(salt: &[u8], ikm: &[u8], info: &[u8], out: &mut [u8])
    requires { length out.old ≤ 255 * 32 }
    ensures { out.new ≡ hkdf_sha256 salt.now ikm.now info.now (length out.old) }
{
    derive::<Sha256, 64, 32>(salt, ikm, info, out);
}

/// HKDF-SHA512 (RFC 5869): fills `out`, of at most 255 times 64 bytes, with output keying material. An
/// empty salt means none.
pub fn hkdf512(salt: &[u8], ikm: &[u8], info: &[u8], out: &mut [u8])
    requires { length out.old ≤ 255 * 64 }
    ensures { out.new ≡ hkdf_sha512 salt.now ikm.now info.now (length out.old) }
{
    derive::<Sha512, 128, 64>(salt, ikm, info, out);
}
