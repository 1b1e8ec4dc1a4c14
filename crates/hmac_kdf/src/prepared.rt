//! HKDF-SHA512 in its two halves, for callers that derive much from one secret.

ghost use Rattle.std.specs.Prelude.{◌≡◌, ◌≤◌, ◌*◌, ℕ, List, length};
ghost use Rattle.hmac_kdf.specs.Hmac.{hash_sha512};
ghost use Rattle.hmac_kdf.specs.Hkdf.{expanded, extracted};
ghost use Rattle.hmac_kdf.specs.Pads.{HavePads};

use crate::derivation::{expand, extract};
use crate::keyed::Keyed;
use byte_words::wipe;
use sha2::Sha512;
use std::marker::Model;

/// The pseudorandom key of HKDF-SHA512 (RFC 5869, 2.2), with the two hashers of an HMAC that have taken it.
/// Deriving up to 64 bytes then hashes two blocks in place of eight. It is as secret as the key material
/// that it was extracted from.
#[derive(Drop)]
pub struct Prk512 {
    key: [u8; 64],
    keyed: Keyed<Sha512>,
}

impl Model for Prk512 {
    ghost Value = { List ℕ };

    ghost view = { λ p. p.key };

    ghost invariant = { λ p. HavePads p.key p.keyed.inner p.keyed.outer };
}

impl Prk512 {
    /// HKDF-Extract (RFC 5869, 2.2): returns the pseudorandom key. An empty salt means none.
    pub fn extract(salt: &[u8], ikm: &[u8]) -> Prk512
        ensures { result ≡ extracted hash_sha512 salt.now ikm.now }
    {
        let mut key = extract::<Sha512, 128, 64>(salt, ikm);
        let keyed = Keyed::new::<128, 64>(&key);
        let prk = Prk512 { key, keyed };
        wipe(&mut key);
        prk
    }

    /// The same in place: wipes the key before and replaces it.
    pub fn replace(&mut self, salt: &[u8], ikm: &[u8])
        ensures { self.new ≡ extracted hash_sha512 salt.now ikm.now }
    {
        wipe(&mut self.key);
        let mut key = extract::<Sha512, 128, 64>(salt, ikm);
        self.key = key;
        self.keyed = Keyed::new::<128, 64>(&key);
        wipe(&mut key);
    }

    /// HKDF-Expand (RFC 5869, 2.3): fills `out`, of at most 255 times 64 bytes, with output keying
    /// material.
    pub fn expand(&self, info: &[u8], out: &mut [u8])
        requires { length out.old ≤ 255 * 64 }
        ensures { out.new ≡ expanded hash_sha512 self.now info.now (length out.old) }
    {
        expand::<Sha512, 128, 64>(&self.keyed, info, out);
    }
}
