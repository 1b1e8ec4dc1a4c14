//! XTS-AES-256 on data units of whole blocks (IEEE 1619), in place.
#![tactic(auto)]

mod block;
mod group;

ghost use Rattle.std.specs.Prelude.{◌≡◌, ◌%◌, ◌++◌, List, ℕ, length, replicate};
ghost use Rattle.xts_mode.specs.Laws.{DecryptionUndoes, EncryptionUndoes, KeepsLength, MakesUnits};
ghost use Rattle.xts_mode.specs.Xts.{first_tweak, xts_decrypted, xts_encrypted};

use crate::block::{block_at, decrypt_tweaked, encrypt_tweaked, times_alpha};
use crate::group::{GROUP_BYTES, decrypt_group, encrypt_group};
use aes_core::{Aes256, KEY_PLANE_BYTES};
use byte_words::wipe;
use std::marker::Model;

/// A key of 64 bytes, whose halves are two keys of AES-256. In contracts it is the 64 bytes. Equal
/// halves are not refused.
#[derive(Drop)]
pub struct XtsKey {
    // Encrypts the blocks.
    cipher: Aes256,
    // Makes the first tweak of a unit.
    tweaker: Aes256,
}

impl Model for XtsKey {
    ghost Value = { List ℕ };

    ghost view = { λ k. k.cipher ++ k.tweaker };

    ghost invariant = { λ k. (length k.cipher ≡ 32) × (length k.tweaker ≡ 32) };
}

impl XtsKey {
    /// Returns the key, with the round keys of both halves.
    pub fn new(key: &[u8; 64]) -> XtsKey
        ensures { result ≡ key.now }
    {
        let mut made = XtsKey::zeros();
        made.set(key);
        made
    }

    /// Returns the key of 64 zeros, in which another key can be set.
    pub fn zeros() -> XtsKey
        ensures { result ≡ replicate 64 0 }
    {
        XtsKey {
            cipher: Aes256::zeros(),
            tweaker: Aes256::zeros(),
        }
    }

    /// Replaces the key by `key`, and the round keys of both halves in place.
    pub fn set(&mut self, key: &[u8; 64])
        ensures { self.new ≡ key.now }
    {
        self.cipher.set(&key[..32]);
        self.tweaker.set(&key[32..]);
    }

    /// Wipes the key and its round keys in place. It is then the key of 64 zeros.
    pub fn wipe(&mut self)
        ensures { self.new ≡ replicate 64 0 }
    {
        self.cipher.wipe();
        self.tweaker.wipe();
    }

    /// Encrypts the unit with this index, in place. Its length must be a multiple of 16 bytes.
    #[inline(never)]
    pub fn encrypt_unit(&self, index: u64, unit: &mut [u8])
        requires whole_blocks { length unit.old % 16 ≡ 0 }
        ensures { unit.new ≡ xts_encrypted self.now index unit.old }
    {
        let mut tweak = self.first_tweak(index);
        let groups = unit.len() / GROUP_BYTES;
        // As secret as the key: they are only in this frame, and are wiped once the groups are done.
        let mut planes = [0; KEY_PLANE_BYTES];
        self.cipher.write_key_planes(&mut planes);
        'groups: for g in 0..groups {
            let at = GROUP_BYTES * g;
            tweak = encrypt_group(
                &self.cipher,
                &planes,
                tweak,
                &mut unit[at..at + GROUP_BYTES],
            );
        }
        wipe(&mut planes);
        'units: for j in 8 * groups..unit.len() / 16 {
            let block = encrypt_tweaked(&self.cipher, tweak, block_at(unit, j));
            unit[16 * j..16 * j + 16].copy_from_slice(&block);
            tweak = times_alpha(tweak);
        }
    }

    /// Decrypts the unit with this index, in place. Its length must be a multiple of 16 bytes.
    #[inline(never)]
    pub fn decrypt_unit(&self, index: u64, unit: &mut [u8])
        requires whole_blocks { length unit.old % 16 ≡ 0 }
        ensures { unit.new ≡ xts_decrypted self.now index unit.old }
    {
        let mut tweak = self.first_tweak(index);
        let groups = unit.len() / GROUP_BYTES;
        // As secret as the key: they are only in this frame, and are wiped once the groups are done.
        let mut planes = [0; KEY_PLANE_BYTES];
        self.cipher.write_key_planes(&mut planes);
        'groups: for g in 0..groups {
            let at = GROUP_BYTES * g;
            tweak = decrypt_group(
                &self.cipher,
                &planes,
                tweak,
                &mut unit[at..at + GROUP_BYTES],
            );
        }
        wipe(&mut planes);
        'units: for j in 8 * groups..unit.len() / 16 {
            let block = decrypt_tweaked(&self.cipher, tweak, block_at(unit, j));
            unit[16 * j..16 * j + 16].copy_from_slice(&block);
            tweak = times_alpha(tweak);
        }
    }

    fn first_tweak(&self, index: u64) -> u128
        ensures { result ≡ first_tweak self.now index }
    {
        let [a, b, c, d, e, f, g, h] = index.to_le_bytes();
        let block = [a, b, c, d, e, f, g, h, 0, 0, 0, 0, 0, 0, 0, 0];
        u128::from_le_bytes(self.tweaker.encrypt_block(block))
    }
}

/// Does nothing. Its contract is the law that decryption and encryption undo one another, for every key,
/// index and unit, and that both return units of the same length.
pub fn decryption_undoes_encryption()
    ensures decrypted { DecryptionUndoes }
    ensures encrypted { EncryptionUndoes }
    ensures length { KeepsLength }
    ensures units { MakesUnits }
{}
