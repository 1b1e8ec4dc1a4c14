//! Buffers for round keys, which are made in them, and the wiping of keys in place.
ghost use Rattle.std.specs.Prelude.{◌≡◌, is_some};
ghost use Rattle.data_crypt.specs.Blocks.{seal_without_key, wiped_seal};
ghost use Rattle.data_crypt.specs.Ciphers.{cipher_seal, seal_by};
ghost use Rattle.file_disk.specs.Keys.{key_seal, pending_seal, seal_of};

use crate::key::ContentsKey;
use byte_words::wipe;
use data_crypt::FileCipher;

// Returns a buffer for round keys, if there is a key.
pub(crate) fn cipher_space(key: &Option<ContentsKey>) -> Option<FileCipher>
    ensures { is_some result ≡ is_some key.now }
{
    match key {
        Some(_) => Some(FileCipher::zeros()),
        None => None,
    }
}

// The same for the key of a pending read.
pub(crate) fn cipher_space_of_pending(key: &Option<Box<ContentsKey>>) -> Option<FileCipher>
    ensures { is_some result ≡ is_some key.now }
{
    match key {
        Some(_) => Some(FileCipher::zeros()),
        None => None,
    }
}

// Makes the round keys of the key in this buffer.
fn set_cipher(cipher: &mut FileCipher, key: &ContentsKey)
    ensures { cipher_seal cipher.new ≡ key_seal key.now }
{
    cipher.key.set(&key.bytes);
    cipher.start = key.start;
    cipher.unit = key.unit;
}

// Makes the round keys in their buffer, if there is a key.
pub(crate) fn fill(cipher: &mut Option<FileCipher>, key: &Option<ContentsKey>)
    requires { is_some cipher.old ≡ is_some key.now }
    ensures { seal_by cipher.new ≡ seal_of key.now }
{
    if let Some(cipher) = cipher {
        if let Some(key) = key {
            set_cipher(cipher, key);
        }
    }
}

// The same for the key of a pending read.
pub(crate) fn fill_pending(cipher: &mut Option<FileCipher>, key: &Option<Box<ContentsKey>>)
    requires { is_some cipher.old ≡ is_some key.now }
    ensures { seal_by cipher.new ≡ pending_seal key.now }
{
    if let Some(cipher) = cipher {
        if let Some(key) = key {
            set_cipher(cipher, key);
        }
    }
}

impl ContentsKey {
    /// Wipes the bytes in place.
    pub fn wipe(&mut self)
        ensures { key_seal self.new ≡ seal_without_key (key_seal self.old) }
    {
        wipe(&mut self.bytes);
    }
}

// Wipes the bytes of the key, if there is one.
#[tactic(auto, unfolding(data_crypt::specs::Blocks::wiped_seal))]
pub(crate) fn wipe_key(key: &mut Option<ContentsKey>)
    ensures { seal_of key.new ≡ wiped_seal (seal_of key.old) }
{
    if let Some(key) = key {
        key.wipe();
    }
}

// The same for the key of a pending read, in its box.
#[tactic(auto, unfolding(data_crypt::specs::Blocks::wiped_seal))]
pub(crate) fn wipe_pending(key: &mut Option<Box<ContentsKey>>)
    ensures { pending_seal key.new ≡ wiped_seal (pending_seal key.old) }
{
    if let Some(key) = key {
        key.wipe();
    }
}
