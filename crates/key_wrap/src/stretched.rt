//! The two keys that a wrapping key is stretched to: one encrypts, the other authenticates.

ghost use Rattle.std.specs.Prelude.{◌≡◌, take, drop, replicate};
ghost use Rattle.key_wrap.specs.Wrapping.{TwoKeys, cipher_key, stretched_key, tag_key};

use aes_core::Aes256;
use byte_words::wipe;
use hmac_kdf::hkdf256;
use std::marker::Model;

/// The two keys, made and wiped in place. The only way to drop them is `end`, which requires that they were
/// wiped.
pub(crate) struct StretchedKey {
    cipher: Aes256,
    tag_key: [u8; 32],
}

impl Model for StretchedKey {
    ghost use Rattle.key_wrap.specs.Wrapping.{TwoKeys};

    ghost Value = { TwoKeys };

    ghost view = { λ keys. record { cipher = keys.cipher; tag_key = keys.tag_key } };
}

impl StretchedKey {
    // Returns a buffer for the keys: those of zeros.
    pub(crate) fn zeros() -> StretchedKey
        ensures cipher { result.cipher ≡ replicate 32 0 }
        ensures tag_key { result.tag_key ≡ replicate 32 0 }
    {
        StretchedKey {
            cipher: Aes256::zeros(),
            tag_key: [0; 32],
        }
    }

    // Stretches the key to both.
    pub(crate) fn set(&mut self, key: &[u8; 32])
        ensures cipher { self.new.cipher ≡ cipher_key key.now }
        ensures tag_key { self.new.tag_key ≡ tag_key key.now }
    {
        let mut stretched = [0; 64];
        stretch(key, &mut stretched);
        self.take_halves(&stretched);
        wipe(&mut stretched);
    }

    fn take_halves(&mut self, stretched: &[u8; 64])
        ensures cipher { self.new.cipher ≡ take 32 stretched.now }
        ensures tag_key { self.new.tag_key ≡ drop 32 stretched.now }
    {
        self.cipher.set(&stretched[..32]);
        self.tag_key.copy_from_slice(&stretched[32..]);
    }

    // Returns the first key, which encrypts.
    pub(crate) fn cipher(&self) -> &Aes256
        ensures { result.now ≡ self.now.cipher }
    {
        &self.cipher
    }

    // Returns the second key, which authenticates.
    pub(crate) fn tag_key(&self) -> &[u8; 32]
        ensures { result.now ≡ self.now.tag_key }
    {
        &self.tag_key
    }

    // Writes zeros over both keys, and the round keys of zeros over those of the first.
    pub(crate) fn wipe(&mut self)
        ensures cipher { self.new.cipher ≡ replicate 32 0 }
        ensures tag_key { self.new.tag_key ≡ replicate 32 0 }
    {
        self.cipher.wipe();
        wipe(&mut self.tag_key);
    }

    // Drops the keys, which are zeros by then.
    pub(crate) fn end(self)
        requires cipher { self.cipher ≡ replicate 32 0 }
        requires tag_key { self.tag_key ≡ replicate 32 0 }
    {
        let StretchedKey {
            cipher: _,
            tag_key: _,
        } = self;
    }
}

// Writes HKDF of the key, without salt and info.
fn stretch(key: &[u8; 32], out: &mut [u8; 64])
    ensures { out.new ≡ stretched_key key.now }
{
    hkdf256(&[], key, &[], out);
}
