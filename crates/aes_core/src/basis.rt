//! The rounds of one block (FIPS 197, 5.1 and 5.3), in one vector. Its bytes stay in the basis in which the
//! S-box, or its inverse, is found, and its rows are shifted at the end. The keys of the rounds between the
//! first and the last are prepared for that, once for each key.

ghost use Rattle.std.specs.Prelude.{◌≡◌, ℕ, ◌+◌, ◌<◌, ◌%◌, List, bit_xor};
ghost use Rattle.std.specs.Simd.Lanes.{zip2};
ghost use Rattle.byte_words.specs.Blocks.{block_at};
ghost use Rattle.aes_core.specs.Aes.{decrypted_with, encrypted_with};
ghost use Rattle.aes_core.specs.Basis.{forward_key, forward_keys, forward_state};
ghost use Rattle.aes_core.specs.Basis.{inverse_key, inverse_keys, inverse_state};
ghost use Rattle.aes_core.specs.Laws.{IsBlock};
ghost use Rattle.aes_core.specs.Steps.{inverse_mix_columns, inverse_shift_rows};
ghost use Rattle.aes_core.specs.Steps.{inverse_substitute_bytes, mix_columns, shift_rows, substitute_bytes};

use crate::rounds::{RoundKeys, add_round_key, inverse_mix_columns, round_key};
use crate::shuffle_tables::{
    AFFINE_CONSTANT, BASIS_OF_HIGH, BASIS_OF_LOW, BY_ELEVEN_OF_FIRST, BY_ELEVEN_OF_SECOND,
    BY_FOURTEEN_OF_FIRST, BY_FOURTEEN_OF_SECOND, BY_NINE_OF_FIRST, BY_NINE_OF_SECOND,
    BY_THIRTEEN_OF_FIRST, BY_THIRTEEN_OF_SECOND, BYTE_OF_FIRST, BYTE_OF_SECOND,
    INVERSE_BASIS_OF_HIGH, INVERSE_BASIS_OF_LOW, INVERSE_BYTE_OF_FIRST, INVERSE_BYTE_OF_SECOND,
    ONCE_OF_FIRST, ONCE_OF_SECOND, TWICE_OF_FIRST, TWICE_OF_SECOND,
};
use crate::shuffles::{by_halves, by_parts, inverse_parts};
use crate::unshifted_rows::{next_unshifted_row, rotate_rows, third_unshifted_row};
use crate::vectors::xor;
use std::simd::prelude::*;

// The keys of the rounds between the first and the last, in the order in which they are added.
pub(crate) type PreparedKeys = [u8; 208];

// A round key as encryption adds it, after `deferred` rounds modulo 4. It carries the constant of the S-box,
// which mixing columns leaves as it is.
#[inline(always)]
fn forward_key(key: u8x16, deferred: usize) -> u8x16
    requires { deferred < 4 }
    ensures { result ≡ forward_key deferred key }
{
    let with_constant = xor(key, u8x16::splat(AFFINE_CONSTANT));
    rotate_rows(
        by_halves(BASIS_OF_LOW, BASIS_OF_HIGH, with_constant),
        3 - deferred,
    )
}

// A round key as decryption adds it, after `deferred` rounds modulo 4.
#[inline(always)]
fn inverse_key(key: u8x16, deferred: usize) -> u8x16
    requires { deferred < 4 }
    ensures { result ≡ inverse_key deferred key }
{
    let mixed = inverse_mix_columns(key);
    rotate_rows(
        by_halves(INVERSE_BASIS_OF_LOW, INVERSE_BASIS_OF_HIGH, mixed),
        (deferred + 1) % 4,
    )
}

// Writes the keys of the rounds 1 to 13 as encryption adds them.
pub(crate) fn write_forward_keys(prepared: &mut PreparedKeys, keys: &RoundKeys)
    ensures { prepared.new ≡ forward_keys keys.now }
{
    'rounds: for n in 0..13 {
        let key = forward_key(round_key(keys, n + 1), n % 4);
        key.copy_to_slice(&mut prepared[16 * n..16 * n + 16]);
    }
}

// Writes the keys of the rounds 13 to 1 as decryption adds them.
pub(crate) fn write_inverse_keys(prepared: &mut PreparedKeys, keys: &RoundKeys)
    ensures { prepared.new ≡ inverse_keys keys.now }
{
    'rounds: for n in 0..13 {
        let key = inverse_key(round_key(keys, 13 - n), n % 4);
        key.copy_to_slice(&mut prepared[16 * n..16 * n + 16]);
    }
}

#[inline(always)]
fn prepared_key(keys: &PreparedKeys, n: usize) -> u8x16
    requires { n < 13 }
    ensures { result ≡ block_at 16 keys.now n }
{
    u8x16::from_slice(&keys[16 * n..16 * n + 16])
}

// A round of encryption. Of bytes a, b, c and d from a row on: (02 a + b) + (02 b + c) + d.
#[inline(always)]
fn forward_round(state: u8x16, key: u8x16, deferred: usize) -> u8x16
    requires { deferred < 4 }
    ensures { (s k : List ℕ) → IsBlock s → IsBlock k → state ≡ forward_state deferred s
        → key ≡ forward_key deferred k → result ≡ forward_state ((deferred + 1) % 4)
        (zip2 bit_xor (mix_columns (shift_rows (substitute_bytes s))) k) }
{
    let (first, second) = inverse_parts(state);
    let once = by_parts(ONCE_OF_FIRST, ONCE_OF_SECOND, first, second);
    let twice = by_parts(TWICE_OF_FIRST, TWICE_OF_SECOND, first, second);
    let sum = xor(twice, next_unshifted_row(once, deferred));
    let keyed = xor(third_unshifted_row(once, deferred), key);
    xor(xor(keyed, sum), next_unshifted_row(sum, deferred))
}

// The last round without its key: out of the basis, and with each row in its place.
#[inline(always)]
fn last_round(state: u8x16) -> u8x16
    ensures { (s : List ℕ) → IsBlock s → state ≡ forward_state 1 s
        → result ≡ shift_rows (substitute_bytes s) }
{
    let (first, second) = inverse_parts(state);
    let linear = by_parts(BYTE_OF_FIRST, BYTE_OF_SECOND, first, second);
    rotate_rows(xor(linear, u8x16::splat(AFFINE_CONSTANT)), 2)
}

pub(crate) fn encrypt(keys: &RoundKeys, forward: &PreparedKeys, block: u8x16) -> u8x16
    requires { forward.now ≡ forward_keys keys.now }
    ensures { result ≡ encrypted_with keys.now block }
{
    let mut state = by_halves(BASIS_OF_LOW, BASIS_OF_HIGH, add_round_key(keys, 0, block));
    'rounds: for done in 0..13 {
        state = forward_round(state, prepared_key(forward, done), done % 4);
    }
    add_round_key(keys, 14, last_round(state))
}

// A round of decryption. Of bytes a, b, c and d from a row on: 0e a + 0b b + 0d c + 09 d.
#[inline(always)]
fn inverse_round(state: u8x16, key: u8x16, deferred: usize) -> u8x16
    requires { deferred < 4 }
    ensures { (s k : List ℕ) → IsBlock s → IsBlock k → state ≡ inverse_state deferred s
        → key ≡ inverse_key deferred k → result ≡ inverse_state ((deferred + 1) % 4)
        (inverse_mix_columns (zip2 bit_xor (inverse_substitute_bytes (inverse_shift_rows s)) k)) }
{
    let (first, second) = inverse_parts(state);
    let by_9 = by_parts(BY_NINE_OF_FIRST, BY_NINE_OF_SECOND, first, second);
    let by_13 = by_parts(BY_THIRTEEN_OF_FIRST, BY_THIRTEEN_OF_SECOND, first, second);
    let by_11 = by_parts(BY_ELEVEN_OF_FIRST, BY_ELEVEN_OF_SECOND, first, second);
    let by_14 = by_parts(BY_FOURTEEN_OF_FIRST, BY_FOURTEEN_OF_SECOND, first, second);
    // Rows shifted back `deferred + 1` times are shifted `3 - deferred` times, one of which is this round's.
    let shifts = (6 - deferred) % 4;
    let two = xor(by_13, next_unshifted_row(by_9, shifts));
    let three = xor(by_11, next_unshifted_row(two, shifts));
    xor(xor(by_14, key), next_unshifted_row(three, shifts))
}

// The last round of decryption without its key.
#[inline(always)]
fn last_inverse_round(state: u8x16) -> u8x16
    ensures { (s : List ℕ) → IsBlock s → state ≡ inverse_state 1 s
        → result ≡ inverse_substitute_bytes (inverse_shift_rows s) }
{
    let (first, second) = inverse_parts(state);
    rotate_rows(
        by_parts(INVERSE_BYTE_OF_FIRST, INVERSE_BYTE_OF_SECOND, first, second),
        2,
    )
}

pub(crate) fn decrypt(keys: &RoundKeys, inverse: &PreparedKeys, block: u8x16) -> u8x16
    requires { inverse.now ≡ inverse_keys keys.now }
    ensures { result ≡ decrypted_with keys.now block }
{
    let mut state = by_halves(
        INVERSE_BASIS_OF_LOW,
        INVERSE_BASIS_OF_HIGH,
        add_round_key(keys, 14, block),
    );
    'rounds: for done in 0..13 {
        state = inverse_round(state, prepared_key(inverse, done), done % 4);
    }
    add_round_key(keys, 0, last_inverse_round(state))
}
