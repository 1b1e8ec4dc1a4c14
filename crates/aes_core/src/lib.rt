//! AES-256 (FIPS 197) on blocks of 16 bytes, one at a time or eight at once. No place in memory that the
//! code reads depends on a key or a block: the S-box is found by shuffles of tables in registers for
//! one block, and by gates on planes of bits for eight.
#![tactic(auto)]

mod basis;
mod eight;
mod inverse_substitution_circuit;
mod key_schedule;
mod plane_rounds;
mod rounds;
mod shuffle_tables;
mod shuffles;
mod substitution_circuit;
mod transposition;
mod unshifted_rows;
mod vectors;
mod zero_key;

ghost use Rattle.std.specs.Prelude.{◌≡◌, ◌<◌, List, [], ℕ, length, replicate, slice_index_or, take};
ghost use Rattle.aes_core.specs.Aes.{decrypted_block, encrypted_block};
ghost use Rattle.aes_core.specs.Basis.{forward_keys, inverse_keys};
ghost use Rattle.aes_core.specs.KeyPlanes.{key_planes};
ghost use Rattle.aes_core.specs.Laws.{DecryptionUndoes, DecryptsToBlocks, EncryptionUndoes};
ghost use Rattle.aes_core.specs.Laws.{EncryptsToBlocks, InverseIsOne, MakesSixteen};
ghost use Rattle.aes_core.specs.RoundKeys.{round_keys};

use crate::basis::{PreparedKeys, write_forward_keys, write_inverse_keys};
pub use crate::plane_rounds::{KEY_PLANE_BYTES, KeyPlanes};
use crate::rounds::RoundKeys;
use crate::zero_key::{forward_keys_of_zeros, inverse_keys_of_zeros, round_keys_of_zeros};
use byte_words::wipe;
use std::marker::Model;
use std::simd::prelude::*;

/// A key of 32 bytes with its round keys, which are computed once. In contracts it is the key.
///
/// A move copies all of them, and the bytes that it leaves behind are not wiped. To be sure that a key is
/// wiped, make the cipher with `zeros`, `set` the key in it, pass only references to it, and `wipe` it in
/// place.
#[derive(Drop)]
pub struct Aes256 {
    // The key itself is the first 32 bytes.
    schedule: RoundKeys,
    // The keys of the rounds 1 to 13 as single blocks are encrypted and decrypted with them.
    forward: PreparedKeys,
    inverse: PreparedKeys,
}

impl Model for Aes256 {
    ghost Value = { List ℕ };

    ghost view = { λ a. take 32 a.schedule };

    ghost invariant = { λ a. (a.schedule ≡ round_keys (take 32 a.schedule))
        × (a.forward ≡ forward_keys a.schedule) × (a.inverse ≡ inverse_keys a.schedule) };
}

impl Aes256 {
    /// Returns the cipher of `key`, with its round keys.
    pub fn new(key: &[u8; 32]) -> Aes256
        ensures { result ≡ key.now }
    {
        let mut cipher = Aes256::zeros();
        cipher.set(key);
        cipher
    }

    /// Returns the cipher of 32 zeros, in which a key can be set.
    pub fn zeros() -> Aes256
        ensures { result ≡ replicate 32 0 }
    {
        Aes256 {
            schedule: round_keys_of_zeros(),
            forward: forward_keys_of_zeros(),
            inverse: inverse_keys_of_zeros(),
        }
    }

    /// Replaces the key by `key`, which must have 32 bytes, and its round keys in place.
    pub fn set(&mut self, key: &[u8])
        requires { length key.now ≡ 32 }
        ensures { self.new ≡ key.now }
    {
        key_schedule::write_round_keys(&mut self.schedule, key);
        write_forward_keys(&mut self.forward, &self.schedule);
        write_inverse_keys(&mut self.inverse, &self.schedule);
    }

    /// Wipes the key and its round keys in place. It is then the cipher of 32 zeros.
    pub fn wipe(&mut self)
        ensures { self.new ≡ replicate 32 0 }
    {
        wipe(&mut self.schedule);
        wipe(&mut self.forward);
        wipe(&mut self.inverse);
        self.schedule = round_keys_of_zeros();
        self.forward = forward_keys_of_zeros();
        self.inverse = inverse_keys_of_zeros();
    }

    /// Returns the block encrypted (FIPS 197, 5.1).
    pub fn encrypt_block(&self, block: [u8; 16]) -> [u8; 16]
        ensures { result ≡ encrypted_block self.now block }
    {
        basis::encrypt(&self.schedule, &self.forward, u8x16::from_array(block)).to_array()
    }

    /// Returns the block decrypted (FIPS 197, 5.3).
    pub fn decrypt_block(&self, block: [u8; 16]) -> [u8; 16]
        ensures { result ≡ decrypted_block self.now block }
    {
        basis::decrypt(&self.schedule, &self.inverse, u8x16::from_array(block)).to_array()
    }

    /// Returns eight blocks encrypted, each in the lanes of one vector, byte by byte.
    pub fn encrypt_eight(&self, blocks: [u8x16; 8]) -> [u8x16; 8]
        ensures { (b : ℕ) → b < 8
            → slice_index_or result b [] ≡ encrypted_block self.now (slice_index_or blocks b []) }
    {
        let mut planes = [0; KEY_PLANE_BYTES];
        self.write_key_planes(&mut planes);
        let encrypted = eight::encrypt_eight(&self.schedule, &planes, blocks);
        wipe(&mut planes);
        encrypted
    }

    /// Returns eight blocks decrypted, each in the lanes of one vector, byte by byte.
    pub fn decrypt_eight(&self, blocks: [u8x16; 8]) -> [u8x16; 8]
        ensures { (b : ℕ) → b < 8
            → slice_index_or result b [] ≡ decrypted_block self.now (slice_index_or blocks b []) }
    {
        let mut planes = [0; KEY_PLANE_BYTES];
        self.write_key_planes(&mut planes);
        let decrypted = eight::decrypt_eight(&self.schedule, &planes, blocks);
        wipe(&mut planes);
        decrypted
    }

    /// Writes the planes of the round keys, with which any number of groups of eight blocks can be
    /// encrypted and decrypted. They are as secret as the key: the caller wipes them after the last use.
    pub fn write_key_planes(&self, planes: &mut KeyPlanes)
        ensures { planes.new ≡ key_planes (round_keys self.now) }
    {
        plane_rounds::write_key_planes(planes, &self.schedule);
    }

    /// Returns eight blocks encrypted as by `encrypt_eight`, with the planes that `write_key_planes`
    /// wrote.
    pub fn encrypt_eight_with(&self, planes: &KeyPlanes, blocks: [u8x16; 8]) -> [u8x16; 8]
        requires { planes.now ≡ key_planes (round_keys self.now) }
        ensures { (b : ℕ) → b < 8
            → slice_index_or result b [] ≡ encrypted_block self.now (slice_index_or blocks b []) }
    {
        eight::encrypt_eight(&self.schedule, planes, blocks)
    }

    /// Returns eight blocks decrypted as by `decrypt_eight`, with the planes that `write_key_planes`
    /// wrote.
    pub fn decrypt_eight_with(&self, planes: &KeyPlanes, blocks: [u8x16; 8]) -> [u8x16; 8]
        requires { planes.now ≡ key_planes (round_keys self.now) }
        ensures { (b : ℕ) → b < 8
            → slice_index_or result b [] ≡ decrypted_block self.now (slice_index_or blocks b []) }
    {
        eight::decrypt_eight(&self.schedule, planes, blocks)
    }
}

/// Does nothing. Its contract is the law that decryption and encryption undo one another, for every key
/// and block, and that both return blocks of 16 bytes.
pub fn decryption_undoes_encryption()
    ensures decrypted { DecryptionUndoes }
    ensures encrypted { EncryptionUndoes }
    ensures sixteen { MakesSixteen }
    ensures encrypted_block { EncryptsToBlocks }
    ensures decrypted_block { DecryptsToBlocks }
{}

/// Does nothing. Its contract is the law that a byte times its inverse is 1, for each byte but 0.
pub fn inverse_is_an_inverse()
    ensures { InverseIsOne }
{}
