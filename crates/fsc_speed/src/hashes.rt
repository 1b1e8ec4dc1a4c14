//! The kernels of hashes and derivations. Each run works on the result of the run before.
ghost use Rattle.std.specs.Prelude.{◌≡◌, ◌++◌, [], drop, replicate};
ghost use Rattle.std.specs.Fn.{iterate};
ghost use Rattle.sha2.specs.Sha256.{sha256};
ghost use Rattle.sha2.specs.Sha512.{sha512};
ghost use Rattle.hmac_kdf.specs.Hkdf.{hkdf_sha512};

use hmac_kdf::hkdf512;
use sha2::{Digest, Sha256, Sha512};

// As long as the info from which a file's key is derived.
const INFO: [u8; 25] = [0x3c; 25];

/// Derives 64 bytes by HKDF-SHA512 from the 64 that were derived before.
#[tactic(auto, using(crate::proofs::Repeating::iterate_more))]
pub(crate) fn hkdf_64(count: u32) -> [u8; 32]
    ensures { result ≡ sha256 (iterate (λ key. hkdf_sha512 [] key INFO 64) count (replicate 64 0)) }
{
    let mut key = [0; 64];
    for _ in 0..count {
        key = derived(&key);
    }
    Sha256::digest(&key)
}

fn derived(key: &[u8; 64]) -> [u8; 64]
    ensures { result ≡ hkdf_sha512 [] key.now INFO 64 }
{
    let mut out = [0; 64];
    hkdf512(&[], key, &INFO, &mut out);
    out
}

/// Hashes 192 bytes by SHA-512, of which the first 64 are the hash before.
#[tactic(auto, using(crate::proofs::Repeating::iterate_more))]
pub(crate) fn sha512_192(count: u32) -> [u8; 32]
    ensures { result ≡ sha256 (iterate (λ message.
        sha512 message ++ drop 64 message) count (replicate 192 0)) }
{
    let mut message = [0; 192];
    for _ in 0..count {
        hash_front(&mut message);
    }
    Sha256::digest(&message)
}

fn hash_front(message: &mut [u8; 192])
    ensures { message.new ≡ sha512 message.old ++ drop 64 message.old }
{
    let digest: [u8; 64] = Sha512::digest(message.as_slice());
    message[..64].copy_from_slice(&digest);
}
