//! The key schedule of AES-256 (FIPS 197, 5.2) by groups of four words, which are round keys. A group is
//! in one vector, a word a column. Each word is the one eight before it xored with the one before it. At
//! the beginning of a group the latter is changed first. So a group is the group two before it, summed up
//! from column to column, with one changed word added to each column.

ghost use Rattle.std.specs.Prelude.{◌≡◌, ◌*◌, ◌+◌, ◌-◌, ◌<◌, ◌≤◌, ◌++◌, List, drop, length, ℕ};
ghost use Rattle.aes_core.specs.Groups.{HoldsGroups, column_sums, in_each_column, last_column};
ghost use Rattle.aes_core.specs.RoundKeys.{changed_word, power_of_x, round_constant, round_keys};
ghost use Rattle.aes_core.specs.Steps.{state_of};

use crate::rounds::{RoundKeys, next_row, round_key};
use crate::shuffles::substitute;
use crate::vectors::xor;
use std::simd::prelude::*;

// One more than the number of rounds.
const GROUPS: usize = 15;

// Writes the round keys of a key of 32 bytes. The loop makes an odd group and an even one at a time, so
// the parity of each is known at compile time.
pub(crate) fn write_round_keys(keys: &mut RoundKeys, key: &[u8])
    requires { length key.now ≡ 32 }
    ensures { keys.new ≡ round_keys key.now }
{
    begin_with(keys, key);
    append_group(keys, 2);
    'pairs: for pair in 1..GROUPS / 2 {
        append_group(keys, 2 * pair + 1);
        append_group(keys, 2 * pair + 2);
    }
}

// The key itself is the first two groups.
fn begin_with(keys: &mut RoundKeys, key: &[u8])
    requires { length key.now ≡ 32 }
    ensures { keys.new ≡ key.now ++ drop 32 keys.old }
{
    keys[..32].copy_from_slice(key);
}

// Writes group `n`, from the two before it.
#[inline(always)]
fn append_group(keys: &mut RoundKeys, n: usize)
    requires { (2 ≤ n) × (n ≤ 14) }
    ensures { (key : List ℕ) → HoldsGroups keys.old key n → HoldsGroups keys.new key (n + 1) }
{
    let sums = column_sums(round_key(keys, n - 2));
    let group = xor(sums, changed_word(keys, n));
    group.copy_to_slice(&mut keys[16 * n..16 * n + 16]);
}

// In each column the sum of the columns up to it.
#[inline(always)]
fn column_sums(words: u8x16) -> u8x16
    ensures { result ≡ column_sums words }
{
    let none = u8x16::splat(0);
    let one_before = none.shuffle(
        words,
        [0, 1, 2, 3, 16, 17, 18, 19, 20, 21, 22, 23, 24, 25, 26, 27],
    );
    let pairs = xor(words, one_before);
    let two_before = none.shuffle(
        pairs,
        [0, 1, 2, 3, 4, 5, 6, 7, 16, 17, 18, 19, 20, 21, 22, 23],
    );
    xor(pairs, two_before)
}

// In each column the last one.
#[inline(always)]
fn last_column(words: u8x16) -> u8x16
    ensures { result ≡ last_column words }
{
    words.swizzle([
        12, 13, 14, 15, 12, 13, 14, 15, 12, 13, 14, 15, 12, 13, 14, 15,
    ])
}

// The power of x that each eighth word takes, which is below x⁸ in all seven of them.
fn round_constant(j: usize) -> u8
    requires { (1 ≤ j) × (j < 8) }
    ensures { result ≡ power_of_x (j - 1) }
{
    1 << (j - 1)
}

// The round constant, in each column.
#[inline(always)]
fn round_constants(j: usize) -> u8x16
    requires { (1 ≤ j) × (j < 8) }
    ensures { result ≡ state_of (λ r c. round_constant j r) }
{
    let power = round_constant(j);
    u8x16::from_array([
        power, 0, 0, 0, power, 0, 0, 0, power, 0, 0, 0, power, 0, 0, 0,
    ])
}

// The word with which the first word of group `n` is xored, in each column.
#[inline(always)]
fn changed_word(keys: &RoundKeys, n: usize) -> u8x16
    requires { (2 ≤ n) × (n ≤ 14) }
    ensures { result ≡ in_each_column (changed_word keys.now (4 * n)) }
{
    let word = last_column(round_key(keys, n - 1));
    let place = n % 2;
    if place == 0 {
        xor(substitute(next_row(word)), round_constants(n / 2))
    } else {
        substitute(word)
    }
}
