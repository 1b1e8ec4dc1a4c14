//! The cipher for the names of one node: made once, for any number of names.

ghost use Rattle.std.specs.Prelude.{◌≡◌, ◌+◌, ◌≤◌, ◌↔◌, [], IsErr, IfOk, length, replicate, take};
ghost use Rattle.aes_core.specs.Laws.{IsBlock};
ghost use Rattle.name_crypt.specs.Plain.{IsStored};
ghost use Rattle.name_crypt.specs.StoredName as spec;
ghost use Rattle.name_crypt.specs.StoredName.{plain_name, stored_name};

use crate::encrypt::{NotPlain, decrypt_in_place, decrypt_name_with, encrypt_name_with};
use crate::plain::Plain;
use crate::steps::Steps;
use crate::stored::StoredName;
use aes_core::Aes256;
use policy_ctx::Pad;
use std::sync::ledger::Ledger;

/// Returns the iv of the names of a node: the number from which the node counts in 8 bytes, the low byte
/// first, and zeros.
pub fn name_iv(start: u64) -> [u8; 16]
    ensures value { result ≡ spec.name_iv start }
    ensures block { IsBlock result }
{
    let mut iv = [0; 16];
    iv[..8].copy_from_slice(&start.to_le_bytes());
    iv
}

/// The round keys of a names key, computed once, and the start of the node for whose names they are. One
/// of these is enough to list a whole directory.
#[derive(Drop)]
pub struct NameCipher {
    /// The names key.
    pub key: Aes256,
    /// The number from which the node counts: 0 under a key of its own, and otherwise the node's number
    /// times 2^32.
    pub start: u64,
}

impl NameCipher {
    /// Returns the cipher of a names key of 32 bytes and a start.
    pub fn new(key: &[u8; 32], start: u64) -> NameCipher
        ensures key { result.key ≡ key.now }
        ensures start { result.start ≡ start }
    {
        NameCipher {
            key: Aes256::new(key),
            start,
        }
    }

    /// Wipes the key and its round keys in place. It is then the cipher of 32 zeros; the start stays.
    pub fn wipe(&mut self)
        ensures key { self.new.key ≡ replicate 32 0 }
        ensures start { self.new.start ≡ self.old.start }
    {
        self.key.wipe();
    }

    /// Returns the stored name of a name or target. `steps` counts one more.
    pub fn encrypt<L: Ledger>(&self, pad: Pad, name: &Plain, steps: &mut Steps<L>) -> StoredName
        ensures value { result ≡ stored_name self.now.key self.now.start pad name.now }
        ensures tick { steps.new ≡ steps.old + 1 }
    {
        encrypt_name_with(&self.key, name_iv(self.start), pad, name, steps)
    }

    /// Returns the name or target of a stored one: the decrypted bytes before the first NUL. Returns
    /// `NotPlain` exactly when the first of them is NUL.
    pub fn decrypt(&self, stored: &StoredName) -> Result<Plain, NotPlain>
        ensures value { IfOk result (λ name. name ≡ plain_name self.now.key self.now.start stored.now) }
        ensures not_plain { IsErr result ↔ (plain_name self.now.key self.now.start stored.now ≡ []) }
    {
        decrypt_name_with(&self.key, name_iv(self.start), stored)
    }
    /// Decrypts the bytes of a stored name or target in place, and returns the length of the plain one, which
    /// is then at the beginning: the bytes before the first NUL.
    pub fn decrypt_in_place(&self, stored: &mut [u8]) -> usize
        requires stored { IsStored stored.old }
        ensures value { take result stored.new ≡ plain_name self.now.key self.now.start stored.old }
        ensures within { result ≤ length stored.new }
        ensures size { length stored.new ≡ length stored.old }
    {
        decrypt_in_place(&self.key, name_iv(self.start), stored)
    }
}
