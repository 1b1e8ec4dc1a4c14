//! AES-256 against the vectors of its standards.

use aes_core::Aes256;
use std::simd::prelude::*;

#[derive(Clone, Copy)]
struct Vectors {
    key: [u128; 2],
    blocks: [(u128, u128); 4],
}

// FIPS 197, appendix C.3, and NIST SP 800-38A, F.1.5 and F.1.6.
fn standard_vectors() -> [Vectors; 2] {
    let appendix = (
        0x00112233445566778899aabbccddeeff,
        0x8ea2b7ca516745bfeafc49904b496089,
    );
    [
        Vectors {
            key: [
                0x000102030405060708090a0b0c0d0e0f,
                0x101112131415161718191a1b1c1d1e1f,
            ],
            blocks: [appendix, appendix, appendix, appendix],
        },
        Vectors {
            key: [
                0x603deb1015ca71be2b73aef0857d7781,
                0x1f352c073b6108d72d9810a30914dff4,
            ],
            blocks: [
                (
                    0x6bc1bee22e409f96e93d7e117393172a,
                    0xf3eed1bdb5d2a03c064b5a7e3db181f8,
                ),
                (
                    0xae2d8a571e03ac9c9eb76fac45af8e51,
                    0x591ccb10d410ed26dc5ba74a31362870,
                ),
                (
                    0x30c81c46a35ce411e5fbc1191a0a52ef,
                    0xb6ed21b99ca6f4f9f153e7b1beafed1d,
                ),
                (
                    0xf69f2445df4f9b17ad2b417be66c3710,
                    0x23304b7a39f9f3ff067d8d8f9e24ecc7,
                ),
            ],
        },
    ]
}

fn key_of(halves: [u128; 2]) -> Aes256 {
    let mut key = [0; 32];
    key[..16].copy_from_slice(&halves[0].to_be_bytes());
    key[16..].copy_from_slice(&halves[1].to_be_bytes());
    Aes256::new(&key)
}

#[test]
fn standard_blocks_encrypt_and_decrypt(rt: HostRuntime) {
    for vectors in standard_vectors() {
        let aes = key_of(vectors.key);
        for (plain, secret) in vectors.blocks {
            assert!(rt; aes.encrypt_block(plain.to_be_bytes()) == secret.to_be_bytes());
            assert!(rt; aes.decrypt_block(secret.to_be_bytes()) == plain.to_be_bytes());
        }
    }
}

fn vector(block: u128) -> u8x16 {
    u8x16::from_array(block.to_be_bytes())
}

// The four blocks and then the same four from the last on.
fn eight(of: [u128; 4]) -> [u8x16; 8] {
    let [a, b, c, d] = of;
    [
        vector(a),
        vector(b),
        vector(c),
        vector(d),
        vector(d),
        vector(c),
        vector(b),
        vector(a),
    ]
}

#[test]
fn standard_blocks_encrypt_and_decrypt_by_eight(rt: HostRuntime) {
    for vectors in standard_vectors() {
        let aes = key_of(vectors.key);
        let [a, b, c, d] = vectors.blocks;
        let plain = eight([a.0, b.0, c.0, d.0]);
        let secret = eight([a.1, b.1, c.1, d.1]);
        let encrypted = aes.encrypt_eight(plain);
        let decrypted = aes.decrypt_eight(secret);
        for i in 0..8 {
            assert!(rt; encrypted[i].to_array() == secret[i].to_array());
            assert!(rt; decrypted[i].to_array() == plain[i].to_array());
        }
    }
}
