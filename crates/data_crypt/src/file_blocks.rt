//! One block of a file, stored and read.
ghost use Rattle.std.specs.Prelude.{◌≡◌, ◌-◌, ◌<◌, ◌≤◌, ◌^◌, length, replicate};
ghost use Rattle.data_crypt.specs.Blocks.{first_index, read_block, stored_block, wiped_seal};
ghost use Rattle.data_crypt.specs.Ciphers.{cipher_seal, seal_by};
ghost use Rattle.data_crypt.specs.Units.{unit_count};

use crate::cipher::FileCipher;
use crate::{BLOCK_SIZE, open_block, seal_block};
use policy_ctx::Unit;
use xts_mode::XtsKey;

impl FileCipher {
    /// Returns a buffer for round keys: it has those of 64 zeros, and units of one block that start at
    /// index 0.
    pub fn zeros() -> FileCipher
        ensures { cipher_seal result ≡ record { key = replicate 64 0; start = 0; unit = Unit.Block } }
    {
        FileCipher {
            key: XtsKey::zeros(),
            start: 0,
            unit: Unit::Block,
        }
    }

    // Returns the index of the first unit of the block. No file reaches the next multiple of 2^32.
    fn first_index(&self, index: u32) -> u64
        requires { index < 2 ^ 20 }
        ensures value { result ≡ first_index (cipher_seal self.now) index }
        ensures room { result ≤ 2 ^ 64 - 8 }
    {
        self.start + u64::from(index) * units_in_block(self.unit)
    }
}

/// Encrypts a plain block of 4,096 bytes in place, as block `index` of the file is stored. Without a cipher
/// it stays plain. `index` is below 2^20.
#[tactic(auto, unfolding(crate::specs::Blocks::stored_block))]
pub fn store_block(cipher: &Option<FileCipher>, index: u32, block: &mut [u8])
    requires block_size { length block.old ≡ BLOCK_SIZE }
    requires near { index < 2 ^ 20 }
    ensures { block.new ≡ stored_block (seal_by cipher.now) index block.old }
{
    if let Some(cipher) = cipher {
        seal_block(&cipher.key, cipher.unit, cipher.first_index(index), block);
    }
}

/// Decrypts in place what is stored as block `index` of the file, 4,096 bytes. Without a cipher it is
/// plain. `index` is below 2^20.
#[tactic(auto, unfolding(crate::specs::Blocks::read_block))]
pub fn read_block(cipher: &Option<FileCipher>, index: u32, block: &mut [u8])
    requires block_size { length block.old ≡ BLOCK_SIZE }
    requires near { index < 2 ^ 20 }
    ensures { block.new ≡ read_block (seal_by cipher.now) index block.old }
{
    if let Some(cipher) = cipher {
        open_block(&cipher.key, cipher.unit, cipher.first_index(index), block);
    }
}

/// Wipes the round keys in place, if there are any. They are those of 64 zeros afterwards.
#[tactic(auto, unfolding(crate::specs::Blocks::wiped_seal))]
pub fn wipe_cipher(cipher: &mut Option<FileCipher>)
    ensures { seal_by cipher.new ≡ wiped_seal (seal_by cipher.old) }
{
    if let Some(cipher) = cipher {
        cipher.key.wipe();
    }
}

fn units_in_block(unit: Unit) -> u64
    ensures value { result ≡ unit_count unit }
    ensures few { result ≤ 8 }
{
    match unit {
        Unit::U512 => 8,
        Unit::U1024 => 4,
        Unit::U2048 => 2,
        Unit::Block | Unit::U4096 => 1,
    }
}
