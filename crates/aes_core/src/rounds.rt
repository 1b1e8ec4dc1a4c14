//! The steps of a round (FIPS 197, 5.1 and 5.3) on one state, whose 16 bytes are in a vector column by
//! column.

ghost use Rattle.std.specs.Prelude.{◌≡◌, ◌≤◌, map};
ghost use Rattle.aes_core.specs.Field.{times_x};
ghost use Rattle.aes_core.specs.Lanes.{round_key, row_on};
ghost use Rattle.aes_core.specs.Steps.{add_round_key, inverse_mix_columns, mix_columns};

use crate::vectors::xor;
use std::simd::prelude::*;

pub(crate) type RoundKeys = [u8; 240];

// The product of each byte by x in the field of bytes.
#[inline(always)]
fn times_x(bytes: u8x16) -> u8x16
    ensures { result ≡ map times_x bytes }
{
    let highest = bytes.simd_ge(u8x16::splat(0x80));
    (bytes + bytes) ^ highest.select(u8x16::splat(0x1b), u8x16::splat(0))
}

// In each column the byte of the next row.
#[inline(always)]
pub(crate) fn next_row(state: u8x16) -> u8x16
    ensures { result ≡ row_on 1 state }
{
    state.swizzle([1, 2, 3, 0, 5, 6, 7, 4, 9, 10, 11, 8, 13, 14, 15, 12])
}

// In each column the byte two rows on.
#[inline(always)]
pub(crate) fn second_row_on(state: u8x16) -> u8x16
    ensures { result ≡ row_on 2 state }
{
    state.swizzle([2, 3, 0, 1, 6, 7, 4, 5, 10, 11, 8, 9, 14, 15, 12, 13])
}

// Of bytes a, b, c and d from a row on: 02 (a + b) + b + (c + d).
#[inline(always)]
pub(crate) fn mix_columns(state: u8x16) -> u8x16
    ensures { result ≡ mix_columns state }
{
    let next = next_row(state);
    let sum = xor(state, next);
    xor(xor(times_x(sum), next), second_row_on(sum))
}

// The inverse polynomial is that of `mix_columns` times 04 x² + 05.
#[inline(always)]
pub(crate) fn inverse_mix_columns(state: u8x16) -> u8x16
    ensures { result ≡ inverse_mix_columns state }
{
    let sum = xor(state, second_row_on(state));
    mix_columns(xor(state, times_x(times_x(sum))))
}

// The words of round key `round`, one a column.
#[inline(always)]
pub(crate) fn round_key(keys: &RoundKeys, round: usize) -> u8x16
    requires { round ≤ 14 }
    ensures { result ≡ round_key keys.now round }
{
    u8x16::from_slice(&keys[16 * round..16 * round + 16])
}

// Xors round key `round` into the state.
#[inline(always)]
pub(crate) fn add_round_key(keys: &RoundKeys, round: usize, state: u8x16) -> u8x16
    requires { round ≤ 14 }
    ensures { result ≡ add_round_key keys.now round state }
{
    xor(state, round_key(keys, round))
}
