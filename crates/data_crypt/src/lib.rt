//! Blocks of file contents: encrypted and decrypted under a file's key, stored and read by a file's cipher,
//! and changed in a part.
#![tactic(auto)]

mod cipher;
mod file_blocks;
mod laws;

ghost use Rattle.std.specs.Prelude.{◌≡◌, ◌+◌, ◌-◌, ◌≤◌, ◌^◌, length};
ghost use Rattle.byte_words.specs.Contents.{spliced};
ghost use Rattle.data_crypt.specs.Parts.{block_with};
ghost use Rattle.data_crypt.specs.Units.{opened_block, sealed_block};

pub use cipher::FileCipher;
pub use file_blocks::{read_block, store_block, wipe_cipher};
pub use laws::{contents_come_back, opening_undoes_sealing, parts_are_read, pieces_are_written};
pub use mount_limits::BLOCK_SIZE;
use policy_ctx::Unit;
use xts_mode::XtsKey;

/// Encrypts a block of 4,096 bytes in place, by XTS-AES-256, in data units. Unit i of the block has the
/// index `first` + i; `first` is at most 2^64 - 8.
pub fn seal_block(key: &XtsKey, unit: Unit, first: u64, block: &mut [u8])
    requires block_size { length block.old ≡ BLOCK_SIZE }
    requires room { first ≤ 2 ^ 64 - 8 }
    ensures { block.new ≡ sealed_block key.now unit first block.old }
{
    let size = unit.size();
    'units: for i in 0..BLOCK_SIZE / size {
        key.encrypt_unit(first + i as u64, &mut block[size * i..size * i + size]);
    }
}

/// Decrypts a block of 4,096 bytes in place, by XTS-AES-256, in data units. Unit i of the block has
/// the index `first` + i; `first` is at most 2^64 - 8.
pub fn open_block(key: &XtsKey, unit: Unit, first: u64, block: &mut [u8])
    requires block_size { length block.old ≡ BLOCK_SIZE }
    requires room { first ≤ 2 ^ 64 - 8 }
    ensures { block.new ≡ opened_block key.now unit first block.old }
{
    let size = unit.size();
    'units: for i in 0..BLOCK_SIZE / size {
        key.decrypt_unit(first + i as u64, &mut block[size * i..size * i + size]);
    }
}

/// Writes `piece` at byte `at` of a plain block of 4,096 bytes. The other bytes stay.
pub fn splice(block: &mut [u8], at: usize, piece: &[u8])
    requires block_size { length block.old ≡ BLOCK_SIZE }
    requires fits { at + length piece.now ≤ BLOCK_SIZE }
    ensures { block.new ≡ spliced block.old at piece.now }
{
    block[at..at + piece.len()].copy_from_slice(piece);
}

/// Writes into block `index` of a file, in plain, its part of `bytes`, which are written from byte `offset`
/// of the file on. The other bytes stay.
#[tactic(auto, unfolding(crate::specs::Parts::block_with))]
pub fn put_part(block: &mut [u8], index: u32, offset: u32, bytes: &[u8])
    requires block_size { length block.old ≡ BLOCK_SIZE }
    ensures { block.new ≡ block_with offset bytes.now index block.old }
{
    let begin = BLOCK_SIZE as u64 * index as u64;
    let place = (offset as u64).saturating_sub(begin).min(BLOCK_SIZE as u64) as usize;
    let passed = begin.saturating_sub(offset as u64).min(bytes.len() as u64) as usize;
    let count = (BLOCK_SIZE - place).min(bytes.len() - passed);
    splice(block, place, &bytes[passed..passed + count]);
}
