//! Eight blocks to eight planes of bits and back: each lane is a square of eight rows of eight bits,
//! whose rows and columns are exchanged in three stages of four exchanges.

ghost use Rattle.std.specs.Prelude.{◌≡◌, ℕ, ◌<◌, [], slice_index_or};
ghost use Rattle.aes_core.specs.Laws.{IsBlock};
ghost use Rattle.aes_core.specs.Planes.{AllBits, lower_bits, square_of, upper_bits, vector_of};

use std::simd::prelude::*;

/// Eight vectors, as eight blocks or as the eight planes of their bits.
pub(crate) type Square = [u8x16; 8];

// The upper bits of the first for the lower of the second, four at a time.
#[inline(always)]
fn exchange_fours(first: u8x16, second: u8x16) -> (u8x16, u8x16)
    ensures given { IsBlock first × IsBlock second }
    ensures lower { (f g : ℕ → ℕ → ℕ) → AllBits f → AllBits g → first ≡ vector_of f → second ≡ vector_of g
        → result.0 ≡ vector_of (lower_bits 4 f g) }
    ensures upper { (f g : ℕ → ℕ → ℕ) → AllBits f → AllBits g → first ≡ vector_of f → second ≡ vector_of g
        → result.1 ≡ vector_of (upper_bits 4 f g) }
{
    let by = u8x16::splat(4);
    let differing = ((first >> by) ^ second) & u8x16::splat(0x0f);
    (first ^ (differing << by), second ^ differing)
}

// The upper bits of each 4 of the first for the lower of the second, two at a time.
#[inline(always)]
fn exchange_pairs(first: u8x16, second: u8x16) -> (u8x16, u8x16)
    ensures lower { (f g : ℕ → ℕ → ℕ) → AllBits f → AllBits g → first ≡ vector_of f → second ≡ vector_of g
        → result.0 ≡ vector_of (lower_bits 2 f g) }
    ensures upper { (f g : ℕ → ℕ → ℕ) → AllBits f → AllBits g → first ≡ vector_of f → second ≡ vector_of g
        → result.1 ≡ vector_of (upper_bits 2 f g) }
{
    let by = u8x16::splat(2);
    let differing = ((first >> by) ^ second) & u8x16::splat(0x33);
    (first ^ (differing << by), second ^ differing)
}

// The upper bits of each 2 of the first for the lower of the second, one at a time.
#[inline(always)]
fn exchange_singles(first: u8x16, second: u8x16) -> (u8x16, u8x16)
    ensures lower { (f g : ℕ → ℕ → ℕ) → AllBits f → AllBits g → first ≡ vector_of f → second ≡ vector_of g
        → result.0 ≡ vector_of (lower_bits 1 f g) }
    ensures upper { (f g : ℕ → ℕ → ℕ) → AllBits f → AllBits g → first ≡ vector_of f → second ≡ vector_of g
        → result.1 ≡ vector_of (upper_bits 1 f g) }
{
    let by = u8x16::splat(1);
    let differing = ((first >> by) ^ second) & u8x16::splat(0x55);
    (first ^ (differing << by), second ^ differing)
}

// Bit k of lane p of row r becomes bit r of lane p of row k.
#[inline(always)]
pub(crate) fn transpose(rows: Square) -> Square
    ensures given { (r : ℕ) → r < 8 → IsBlock (slice_index_or rows r []) }
    ensures turned { (bit : ℕ → ℕ → ℕ → ℕ) → ((r : ℕ) → AllBits (bit r)) → rows ≡ square_of bit
        → result ≡ square_of (λ k r p. bit r k p) }
{
    let [a0, a1, a2, a3, a4, a5, a6, a7] = rows;
    let (b0, b4) = exchange_fours(a0, a4);
    let (b1, b5) = exchange_fours(a1, a5);
    let (b2, b6) = exchange_fours(a2, a6);
    let (b3, b7) = exchange_fours(a3, a7);
    let (c0, c2) = exchange_pairs(b0, b2);
    let (c1, c3) = exchange_pairs(b1, b3);
    let (c4, c6) = exchange_pairs(b4, b6);
    let (c5, c7) = exchange_pairs(b5, b7);
    let (d0, d1) = exchange_singles(c0, c1);
    let (d2, d3) = exchange_singles(c2, c3);
    let (d4, d5) = exchange_singles(c4, c5);
    let (d6, d7) = exchange_singles(c6, c7);
    [d0, d1, d2, d3, d4, d5, d6, d7]
}
