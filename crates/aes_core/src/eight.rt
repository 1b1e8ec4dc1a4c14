//! Eight blocks at once: into planes of bits, through the rounds, and back. Outside of the planes a block
//! is one vector: there the rows are shifted, and the first and the last key are added.

ghost use Rattle.std.specs.Prelude.{◌≡◌, ℕ, ◌<◌, List, [], slice_index_or};
ghost use Rattle.byte_words.specs.Bytes.{AreBytes};
ghost use Rattle.aes_core.specs.Aes.{decrypted_with, encrypted_with};
ghost use Rattle.aes_core.specs.KeyPlanes.{key_planes};
ghost use Rattle.aes_core.specs.MiddleRounds.{inverse_middle_rounds, middle_rounds, plus_constant, state_map};
ghost use Rattle.aes_core.specs.Planes.{AllBlocks, planes};
ghost use Rattle.aes_core.specs.Steps.{add_round_key};
ghost use Rattle.aes_core.specs.UnshiftedRows.{rotated_rows};

use crate::inverse_substitution_circuit::inverse_substitute_planes;
use crate::plane_rounds::{KeyPlanes, add_plane_key, inverse_mix_plane_columns, mix_plane_columns};
use crate::rounds::{RoundKeys, add_round_key};
use crate::shuffle_tables::AFFINE_CONSTANT;
use crate::substitution_circuit::substitute_planes;
use crate::transposition::{Square, transpose};
use crate::unshifted_rows::rotate_rows;
use crate::vectors::xor;
use std::simd::prelude::*;

fn encrypt_planes(keys: &KeyPlanes, blocks: Square) -> Square
    ensures { (w : List ℕ) (s : ℕ → List ℕ) → AreBytes w → AllBlocks s → keys.now ≡ key_planes w
        → blocks ≡ planes s → result ≡ planes (λ b. middle_rounds w (s b)) }
{
    let mut state = blocks;
    'rounds: for done in 0..13 {
        let mixed = mix_plane_columns(substitute_planes(state), done % 4);
        state = add_plane_key(keys, done, mixed);
    }
    substitute_planes(state)
}

fn decrypt_planes(keys: &KeyPlanes, blocks: Square) -> Square
    ensures { (w : List ℕ) (s : ℕ → List ℕ) → AreBytes w → AllBlocks s → keys.now ≡ key_planes w
        → blocks ≡ planes s → result ≡ planes (λ b. inverse_middle_rounds w (s b)) }
{
    let mut state = blocks;
    'rounds: for done in 0..13 {
        let keyed = add_plane_key(keys, 12 - done, inverse_substitute_planes(state));
        state = inverse_mix_plane_columns(keyed, (12 - done) % 4);
    }
    inverse_substitute_planes(state)
}

// The planes lack the constant of the last S-box, and 14 shifts of rows, which are 2 modulo 4.
#[inline(always)]
fn end_encryption(keys: &RoundKeys, block: u8x16) -> u8x16
    ensures { result ≡ add_round_key keys.now 14 (rotated_rows 2 (state_map plus_constant block)) }
{
    let substituted = xor(block, u8x16::splat(AFFINE_CONSTANT));
    add_round_key(keys, 14, rotate_rows(substituted, 2))
}

// Rows are rotated by 14 inverse shifts, which are 2 modulo 4. So each round has its rows where that
// round of encryption has them, and the same planes of its key serve both.
#[inline(always)]
fn begin_decryption(keys: &RoundKeys, block: u8x16) -> u8x16
    ensures { result ≡ state_map plus_constant (rotated_rows 2 (add_round_key keys.now 14 block)) }
{
    let rotated = rotate_rows(add_round_key(keys, 14, block), 2);
    xor(rotated, u8x16::splat(AFFINE_CONSTANT))
}

// Each of the eight blocks encrypted.
pub(crate) fn encrypt_eight(keys: &RoundKeys, planes: &KeyPlanes, blocks: [u8x16; 8]) -> [u8x16; 8]
    requires { planes.now ≡ key_planes keys.now }
    ensures { (b : ℕ) → b < 8
        → slice_index_or result b [] ≡ encrypted_with keys.now (slice_index_or blocks b []) }
{
    let [b0, b1, b2, b3, b4, b5, b6, b7] = blocks;
    let first = [
        add_round_key(keys, 0, b0),
        add_round_key(keys, 0, b1),
        add_round_key(keys, 0, b2),
        add_round_key(keys, 0, b3),
        add_round_key(keys, 0, b4),
        add_round_key(keys, 0, b5),
        add_round_key(keys, 0, b6),
        add_round_key(keys, 0, b7),
    ];
    let [m0, m1, m2, m3, m4, m5, m6, m7] = transpose(encrypt_planes(planes, transpose(first)));
    [
        end_encryption(keys, m0),
        end_encryption(keys, m1),
        end_encryption(keys, m2),
        end_encryption(keys, m3),
        end_encryption(keys, m4),
        end_encryption(keys, m5),
        end_encryption(keys, m6),
        end_encryption(keys, m7),
    ]
}

// Each of the eight blocks decrypted.
pub(crate) fn decrypt_eight(keys: &RoundKeys, planes: &KeyPlanes, blocks: [u8x16; 8]) -> [u8x16; 8]
    requires { planes.now ≡ key_planes keys.now }
    ensures { (b : ℕ) → b < 8
        → slice_index_or result b [] ≡ decrypted_with keys.now (slice_index_or blocks b []) }
{
    let [b0, b1, b2, b3, b4, b5, b6, b7] = blocks;
    let first = [
        begin_decryption(keys, b0),
        begin_decryption(keys, b1),
        begin_decryption(keys, b2),
        begin_decryption(keys, b3),
        begin_decryption(keys, b4),
        begin_decryption(keys, b5),
        begin_decryption(keys, b6),
        begin_decryption(keys, b7),
    ];
    let [m0, m1, m2, m3, m4, m5, m6, m7] = transpose(decrypt_planes(planes, transpose(first)));
    [
        add_round_key(keys, 0, m0),
        add_round_key(keys, 0, m1),
        add_round_key(keys, 0, m2),
        add_round_key(keys, 0, m3),
        add_round_key(keys, 0, m4),
        add_round_key(keys, 0, m5),
        add_round_key(keys, 0, m6),
        add_round_key(keys, 0, m7),
    ]
}
