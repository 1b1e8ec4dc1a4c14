//! The kernels of ciphers. Each run works on the result of the run before.
ghost use Rattle.std.specs.Prelude.{◌≡◌, ◌≤◌, ◌%◌, IfOk, length, replicate};
ghost use Rattle.std.specs.Fn.{iterate};
ghost use Rattle.sha2.specs.Sha256.{sha256};
ghost use Rattle.aes_core.specs.Aes.{decrypted_block, encrypted_block};
ghost use Rattle.xts_mode.specs.Xts.{xts_decrypted, xts_encrypted};
ghost use Rattle.cts_mode.specs.Cts.{cts_encrypted};

use aes_core::Aes256;
use cts_mode::cts_encrypt;
use sha2::{Digest, Sha256};
use std::alloc::{AllocError, Global};
use xts_mode::XtsKey;

const KEY: [u8; 32] = [0x5a; 32];

const UNIT_KEY: [u8; 64] = [0x5a; 64];

const IV: [u8; 16] = [0xa5; 16];

/// Encrypts a block repeatedly, with the round keys made once.
#[tactic(auto, using(crate::proofs::Repeating::iterate_more))]
pub(crate) fn aes_block(count: u32) -> [u8; 32]
    ensures { result ≡ sha256 (iterate (encrypted_block KEY) count (replicate 16 0)) }
{
    let key = Aes256::new(&KEY);
    let mut block = [0; 16];
    for _ in 0..count {
        block = key.encrypt_block(block);
    }
    Sha256::digest(&block)
}

/// Decrypts a block repeatedly, with the round keys made once.
#[tactic(auto, using(crate::proofs::Repeating::iterate_more))]
pub(crate) fn aes_block_back(count: u32) -> [u8; 32]
    ensures { result ≡ sha256 (iterate (decrypted_block KEY) count (replicate 16 0)) }
{
    let key = Aes256::new(&KEY);
    let mut block = [0; 16];
    for _ in 0..count {
        block = key.decrypt_block(block);
    }
    Sha256::digest(&block)
}

/// Encrypts a unit of `length` bytes in place repeatedly, as the unit with index 7.
pub(crate) fn xts(alloc: Global, length: usize, count: u32) -> Result<[u8; 32], AllocError>
    requires { length % 16 ≡ 0 }
    ensures { IfOk result (λ digest.
        digest ≡ sha256 (iterate (xts_encrypted UNIT_KEY 7) count (replicate length 0))) }
{
    let mut unit = vec![in alloc; 0; length]?;
    repeat_xts(unit.as_mut_slice(), count);
    Ok(Sha256::digest(unit.as_slice()))
}

#[tactic(auto, using(crate::proofs::Repeating::iterate_more))]
fn repeat_xts(unit: &mut [u8], count: u32)
    requires { length unit.old % 16 ≡ 0 }
    ensures { unit.new ≡ iterate (xts_encrypted UNIT_KEY 7) count unit.old }
{
    let key = XtsKey::new(&UNIT_KEY);
    for _ in 0..count {
        key.encrypt_unit(7, unit);
    }
}

/// Decrypts a unit of `length` bytes in place repeatedly, as the unit with index 7.
pub(crate) fn xts_back(alloc: Global, length: usize, count: u32) -> Result<[u8; 32], AllocError>
    requires { length % 16 ≡ 0 }
    ensures { IfOk result (λ digest. digest
        ≡ sha256 (iterate (xts_decrypted UNIT_KEY 7) count (replicate length 0))) }
{
    let mut unit = vec![in alloc; 0; length]?;
    repeat_xts_back(unit.as_mut_slice(), count);
    Ok(Sha256::digest(unit.as_slice()))
}

#[tactic(auto, using(crate::proofs::Repeating::iterate_more))]
fn repeat_xts_back(unit: &mut [u8], count: u32)
    requires { length unit.old % 16 ≡ 0 }
    ensures { unit.new ≡ iterate (xts_decrypted UNIT_KEY 7) count unit.old }
{
    let key = XtsKey::new(&UNIT_KEY);
    for _ in 0..count {
        key.decrypt_unit(7, unit);
    }
}

/// Encrypts a text of `length` bytes in place repeatedly.
pub(crate) fn cts(alloc: Global, length: usize, count: u32) -> Result<[u8; 32], AllocError>
    requires { 16 ≤ length }
    ensures { IfOk result (λ digest.
        digest ≡ sha256 (iterate (cts_encrypted KEY IV) count (replicate length 0))) }
{
    let mut text = vec![in alloc; 0; length]?;
    repeat_cts(text.as_mut_slice(), count);
    Ok(Sha256::digest(text.as_slice()))
}

#[tactic(auto, using(crate::proofs::Repeating::iterate_more))]
fn repeat_cts(text: &mut [u8], count: u32)
    requires { 16 ≤ length text.old }
    ensures { text.new ≡ iterate (cts_encrypted KEY IV) count text.old }
{
    let key = Aes256::new(&KEY);
    for _ in 0..count {
        cts_encrypt(&key, IV, text);
    }
}
