//! Blocks of contents as Linux stored them.

use crate::block_vectors::{STORED, Stored};
use crate::compared::same_bytes;
use data_crypt::{open_block, put_part, seal_block, splice};
use policy_ctx::Unit;
use sha2::{Digest, Sha256};
use std::alloc::Global;
use std::process::Abort;
use xts_mode::XtsKey;

// Block `index` of a file of this size, as the vectors fill it.
fn plain_block(size: u64, seed: u64, index: u64) -> [u8; 4096] {
    let mut plain = [0u8; 4096];
    for (i, byte) in plain.iter_mut().enumerate() {
        let place = index.wrapping_mul(4096).wrapping_add(i as u64);
        if place < size {
            let sum = place.wrapping_mul(131).wrapping_add(place / 256 * 29);
            *byte = (sum.wrapping_add(seed) % 256) as u8;
        }
    }
    plain
}

// The key that these digits spell.
fn key_of<A: Abort>(rt: &A, digits: &str) -> XtsKey {
    let mut key = [0; 64];
    hex::decode_to_slice(digits, &mut key).expect(rt, "a key");
    XtsKey::new(&key)
}

// The number of the block's first unit.
fn first_unit(known: &Stored) -> u64 {
    let units = (4096 / known.unit.size()) as u64;
    ((known.inode as u64) << 32).wrapping_add(known.block.wrapping_mul(units))
}

// Asserts that these digits are the SHA-256 of the bytes.
fn expect_digest<A: Abort>(rt: &A, alloc: Global, bytes: &[u8], wanted: &str) {
    let digits = hex::encode(alloc, Sha256::digest(bytes).as_slice()).expect(rt, "memory");
    same_bytes(rt, digits.as_bytes(), wanted.as_bytes());
}

// Asserts that the block is encrypted as the kernel stored it, and decrypted to what it was.
fn expect_stored<A: Abort>(rt: &A, alloc: Global, known: &Stored) {
    let key = key_of(rt, known.key);
    let first = first_unit(known);
    assert!(rt; first < 1 << 63);
    let plain = plain_block(known.size, known.seed, known.block);
    let mut block = plain;
    seal_block(&key, known.unit, first, &mut block);
    expect_digest(rt, alloc, &block, known.sha256);
    open_block(&key, known.unit, first, &mut block);
    same_bytes(rt, &block, &plain);
}

#[test]
fn blocks_are_those_that_linux_stored(rt: HostRuntime) {
    for known in &STORED {
        expect_stored(&rt, rt.alloc(), known);
    }
}

#[test]
fn unit_3_of_block_1_has_index_11_where_units_have_512_bytes(rt: HostRuntime) {
    let key = XtsKey::new(&[7; 64]);
    let plain = plain_block(8192, 1, 1);
    let mut block = plain;
    seal_block(&key, Unit::U512, 8, &mut block);
    let mut unit = [0; 512];
    unit.copy_from_slice(&plain[1536..2048]);
    key.encrypt_unit(11, &mut unit);
    same_bytes(&rt, &block[1536..2048], &unit);
}

#[test]
fn splice_changes_last_byte_alone(rt: HostRuntime) {
    let mut block = [0x55u8; 4096];
    let mut want = block;
    want[4095] = 0xaa;
    splice(&mut block, 4095, &[0xaa]);
    same_bytes(&rt, &block, &want);
}

#[test]
fn a_piece_over_a_border_falls_into_both_blocks(rt: HostRuntime) {
    let (mut first, mut second) = ([0u8; 4096], [0u8; 4096]);
    put_part(&mut first, 0, 4094, b"abcde");
    put_part(&mut second, 1, 4094, b"abcde");
    same_bytes(&rt, &first[4093..], b"\0ab");
    same_bytes(&rt, &second[..4], b"cde\0");
}
