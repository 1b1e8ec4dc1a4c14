//! The steps of a round on eight blocks at once, in eight planes of bits (after Käsper and Schwabe,
//! "Faster and timing-attack resistant AES-GCM", 2009). The contract of each says how it changes every
//! block. Rows are not shifted here.

ghost use Rattle.std.specs.Prelude.{◌≡◌, ℕ, ◌+◌, ◌<◌, ◌%◌, List, bit_xor, length, map};
ghost use Rattle.std.specs.Int.{bit_at};
ghost use Rattle.std.specs.Simd.Lanes.{zip2};
ghost use Rattle.byte_words.specs.Blocks.{block_at};
ghost use Rattle.byte_words.specs.Bytes.{AreBytes};
ghost use Rattle.aes_core.specs.Field.{times_x};
ghost use Rattle.aes_core.specs.KeyPlanes.{common_key, key_planes, planes_of_key};
ghost use Rattle.aes_core.specs.Lanes.{round_key};
ghost use Rattle.aes_core.specs.Planes.{AllBlocks, plane, planes};
ghost use Rattle.aes_core.specs.UnshiftedRows.{unshifted_inverse_mix, unshifted_mix, unshifted_row};

use crate::rounds::{RoundKeys, round_key};
use crate::shuffle_tables::AFFINE_CONSTANT;
use crate::transposition::Square;
use crate::unshifted_rows::{next_unshifted_row, rotate_rows, second_unshifted_row};
use crate::vectors::xor;
use std::simd::prelude::*;

/// The number of bytes of the planes of the round keys: 8 planes of 16 bytes for each of 13 keys.
pub const KEY_PLANE_BYTES: usize = 1664;

/// The planes of the round keys, as `Aes256::write_key_planes` writes them.
pub type KeyPlanes = [u8; KEY_PLANE_BYTES];

#[inline(always)]
fn xor_planes(left: Square, right: Square) -> Square
    ensures { (s t : ℕ → List ℕ) → AllBlocks s → AllBlocks t → left ≡ planes s → right ≡ planes t
        → result ≡ planes (λ b. zip2 bit_xor (s b) (t b)) }
{
    let [l0, l1, l2, l3, l4, l5, l6, l7] = left;
    let [r0, r1, r2, r3, r4, r5, r6, r7] = right;
    [
        xor(l0, r0),
        xor(l1, r1),
        xor(l2, r2),
        xor(l3, r3),
        xor(l4, r4),
        xor(l5, r5),
        xor(l6, r6),
        xor(l7, r7),
    ]
}

#[inline(always)]
fn next_plane_rows(state: Square, deferred: usize) -> Square
    requires { deferred < 4 }
    ensures { (s : ℕ → List ℕ) → state ≡ planes s → result ≡ planes (λ b. unshifted_row 1 deferred (s b)) }
{
    let [q0, q1, q2, q3, q4, q5, q6, q7] = state;
    [
        next_unshifted_row(q0, deferred),
        next_unshifted_row(q1, deferred),
        next_unshifted_row(q2, deferred),
        next_unshifted_row(q3, deferred),
        next_unshifted_row(q4, deferred),
        next_unshifted_row(q5, deferred),
        next_unshifted_row(q6, deferred),
        next_unshifted_row(q7, deferred),
    ]
}

#[inline(always)]
fn second_plane_rows(state: Square, deferred: usize) -> Square
    requires { deferred < 4 }
    ensures { (s : ℕ → List ℕ) → state ≡ planes s → result ≡ planes (λ b. unshifted_row 2 deferred (s b)) }
{
    let [q0, q1, q2, q3, q4, q5, q6, q7] = state;
    [
        second_unshifted_row(q0, deferred),
        second_unshifted_row(q1, deferred),
        second_unshifted_row(q2, deferred),
        second_unshifted_row(q3, deferred),
        second_unshifted_row(q4, deferred),
        second_unshifted_row(q5, deferred),
        second_unshifted_row(q6, deferred),
        second_unshifted_row(q7, deferred),
    ]
}

// The product of each byte by x: bit 7 is added to bits 0, 1, 3 and 4.
#[inline(always)]
fn planes_times_x(state: Square) -> Square
    ensures { (s : ℕ → List ℕ) → AllBlocks s → state ≡ planes s
        → result ≡ planes (λ b. map times_x (s b)) }
{
    let [q0, q1, q2, q3, q4, q5, q6, q7] = state;
    [q7, xor(q0, q7), q1, xor(q2, q7), xor(q3, q7), q4, q5, q6]
}

#[inline(always)]
pub(crate) fn mix_plane_columns(state: Square, deferred: usize) -> Square
    requires { deferred < 4 }
    ensures { (s : ℕ → List ℕ) → AllBlocks s → state ≡ planes s
        → result ≡ planes (λ b. unshifted_mix deferred (s b)) }
{
    let next = next_plane_rows(state, deferred);
    let sum = xor_planes(state, next);
    let first = xor_planes(planes_times_x(sum), next);
    xor_planes(first, second_plane_rows(sum, deferred))
}

#[inline(always)]
pub(crate) fn inverse_mix_plane_columns(state: Square, deferred: usize) -> Square
    requires { deferred < 4 }
    ensures { (s : ℕ → List ℕ) → AllBlocks s → state ≡ planes s
        → result ≡ planes (λ b. unshifted_inverse_mix deferred (s b)) }
{
    let sum = xor_planes(state, second_plane_rows(state, deferred));
    let before = xor_planes(state, planes_times_x(planes_times_x(sum)));
    mix_plane_columns(before, deferred)
}

// A round key as encryption adds it to unshifted rows after `deferred` rounds modulo 4, and decryption when
// as many are left. It carries the constant of the S-box.
#[inline(always)]
fn common_key(key: u8x16, deferred: usize) -> u8x16
    requires { deferred < 4 }
    ensures { result ≡ common_key deferred key }
{
    let with_constant = xor(key, u8x16::splat(AFFINE_CONSTANT));
    rotate_rows(with_constant, 3 - deferred)
}

// The plane of one bit of a key that all eight blocks share: all ones in the lanes that have the bit.
#[inline(always)]
fn key_plane(key: u8x16, bit: u8) -> u8x16
    requires { bit < 8 }
    ensures { result ≡ plane (λ x. bit_at x bit) (λ _. key) }
{
    let mask = u8x16::splat(1 << bit);
    (key & mask)
        .simd_eq(mask)
        .select(u8x16::splat(255), u8x16::splat(0))
}

#[inline(always)]
fn write_planes_of_key(part: &mut [u8], key: u8x16)
    requires { length part.old ≡ 128 }
    ensures { part.new ≡ planes_of_key key }
{
    'bits: for bit in 0..8 {
        key_plane(key, bit as u8).copy_to_slice(&mut part[16 * bit..16 * bit + 16]);
    }
}

// Writes the planes of the keys of the rounds 1 to 13.
pub(crate) fn write_key_planes(planes: &mut KeyPlanes, keys: &RoundKeys)
    ensures { planes.new ≡ key_planes keys.now }
{
    'rounds: for n in 0..13 {
        let key = common_key(round_key(keys, n + 1), n % 4);
        write_planes_of_key(&mut planes[128 * n..128 * n + 128], key);
    }
}

#[inline(always)]
fn stored_plane(keys: &KeyPlanes, n: usize) -> u8x16
    requires { n < 104 }
    ensures { result ≡ block_at 16 keys.now n }
{
    u8x16::from_slice(&keys[16 * n..16 * n + 16])
}

// Xors the key of round `n + 1` into the state of each block.
#[inline(always)]
pub(crate) fn add_plane_key(keys: &KeyPlanes, n: usize, state: Square) -> Square
    requires { n < 13 }
    ensures { (w : List ℕ) (s : ℕ → List ℕ) → AreBytes w → AllBlocks s → keys.now ≡ key_planes w
        → state ≡ planes s
        → result ≡ planes (λ b. zip2 bit_xor (s b) (common_key (n % 4) (round_key w (n + 1)))) }
{
    let key = [
        stored_plane(keys, 8 * n),
        stored_plane(keys, 8 * n + 1),
        stored_plane(keys, 8 * n + 2),
        stored_plane(keys, 8 * n + 3),
        stored_plane(keys, 8 * n + 4),
        stored_plane(keys, 8 * n + 5),
        stored_plane(keys, 8 * n + 6),
        stored_plane(keys, 8 * n + 7),
    ];
    xor_planes(state, key)
}
