//! Eight blocks of a data unit at once.

ghost use Rattle.std.specs.Prelude.{◌≡◌, ℕ, ◌*◌, ◌+◌, ◌<◌, ◌≤◌, [], length, slice_index_or};
ghost use Rattle.byte_words.specs.Blocks.{block_at, first_blocks};
ghost use Rattle.byte_words.specs.Numbers.{little_endian_bytes};
ghost use Rattle.byte_words.specs.Xor.{xor_bytes};
ghost use Rattle.aes_core.specs.Aes.{decrypted_block, encrypted_block};
ghost use Rattle.aes_core.specs.KeyPlanes.{key_planes};
ghost use Rattle.aes_core.specs.RoundKeys.{round_keys};
ghost use Rattle.xts_mode.specs.Groups.{group_of, tweak_from};

use crate::block::times_alpha;
use aes_core::{Aes256, KeyPlanes};
use std::simd::prelude::*;

pub(crate) const GROUP_BYTES: usize = 128;

/// The mask that is xored to each block of a group: its tweak, low byte first.
type Masks = [u8x16; 8];

// Built from its two halves of 8 bytes, since 16 single bytes would be inserted into the vector one by
// one.
#[inline(always)]
fn mask_of(tweak: u128) -> u8x16
    ensures { result ≡ little_endian_bytes 16 tweak }
{
    let low = (tweak % (1 << 64)) as u64;
    let high = (tweak >> 64) as u64;
    u64x2::from_array([low, high]).to_le_bytes()
}

// The masks of the eight blocks from this tweak on.
#[inline(always)]
fn group_masks(tweak: u128) -> Masks
    ensures { (b : ℕ) → b < 8
        → slice_index_or result b [] ≡ little_endian_bytes 16 (tweak_from tweak b) }
{
    let second = times_alpha(tweak);
    let third = times_alpha(second);
    let fourth = times_alpha(third);
    let fifth = times_alpha(fourth);
    let sixth = times_alpha(fifth);
    let seventh = times_alpha(sixth);
    let eighth = times_alpha(seventh);
    [
        mask_of(tweak),
        mask_of(second),
        mask_of(third),
        mask_of(fourth),
        mask_of(fifth),
        mask_of(sixth),
        mask_of(seventh),
        mask_of(eighth),
    ]
}

// The tweak of the block after a group.
#[inline(always)]
fn after_group(tweak: u128) -> u128
    ensures { result ≡ tweak_from tweak 8 }
{
    let third = times_alpha(times_alpha(tweak));
    let fifth = times_alpha(times_alpha(third));
    let seventh = times_alpha(times_alpha(fifth));
    times_alpha(times_alpha(seventh))
}

// Block `b` of the group with its mask added.
#[inline(always)]
fn masked_block(group: &[u8], b: usize, mask: u8x16) -> u8x16
    requires within { 16 * b + 16 ≤ length group.now }
    ensures { result ≡ xor_bytes (block_at 16 group.now b) mask }
{
    u8x16::from_slice(&group[16 * b..16 * b + 16]) ^ mask
}

#[inline(always)]
fn masked_group(group: &[u8], masks: Masks) -> [u8x16; 8]
    requires whole { length group.now ≡ GROUP_BYTES }
    ensures { (b : ℕ) → b < 8
        → slice_index_or result b [] ≡ xor_bytes (block_at 16 group.now b) (slice_index_or masks b []) }
{
    let [a, b, c, d, e, f, g, h] = masks;
    [
        masked_block(group, 0, a),
        masked_block(group, 1, b),
        masked_block(group, 2, c),
        masked_block(group, 3, d),
        masked_block(group, 4, e),
        masked_block(group, 5, f),
        masked_block(group, 6, g),
        masked_block(group, 7, h),
    ]
}

// Writes each block of the group, with its mask added.
#[inline(always)]
fn write_masked(group: &mut [u8], blocks: &[u8x16; 8], masks: &Masks)
    requires whole { length group.old ≡ GROUP_BYTES }
    requires blocks { (b : ℕ) → b < 8 → length (slice_index_or blocks.now b []) ≡ 16 }
    requires masks { (b : ℕ) → b < 8 → length (slice_index_or masks.now b []) ≡ 16 }
    ensures { group.new ≡ first_blocks (λ b. xor_bytes (slice_index_or blocks.now b [])
        (slice_index_or masks.now b [])) 8 }
{
    'blocks_of_group: for b in 0..8 {
        (blocks[b] ^ masks[b]).copy_to_slice(&mut group[16 * b..16 * b + 16]);
    }
}

// Encrypts eight blocks in place, of which the first has this tweak. Returns the tweak of the block
// after them.
pub(crate) fn encrypt_group(key: &Aes256, planes: &KeyPlanes, tweak: u128, group: &mut [u8]) -> u128
    requires planes { planes.now ≡ key_planes (round_keys key.now) }
    requires whole { length group.old ≡ GROUP_BYTES }
    ensures group { group.new ≡ group_of (encrypted_block key.now) tweak group.old }
    ensures next { result ≡ tweak_from tweak 8 }
{
    let masks = group_masks(tweak);
    let sealed = key.encrypt_eight_with(planes, masked_group(group, masks));
    write_masked(group, &sealed, &masks);
    after_group(tweak)
}

// Decrypts eight blocks in place, of which the first has this tweak. Returns the tweak of the block
// after them.
pub(crate) fn decrypt_group(key: &Aes256, planes: &KeyPlanes, tweak: u128, group: &mut [u8]) -> u128
    requires planes { planes.now ≡ key_planes (round_keys key.now) }
    requires whole { length group.old ≡ GROUP_BYTES }
    ensures group { group.new ≡ group_of (decrypted_block key.now) tweak group.old }
    ensures next { result ≡ tweak_from tweak 8 }
{
    let masks = group_masks(tweak);
    let plain = key.decrypt_eight_with(planes, masked_group(group, masks));
    write_masked(group, &plain, &masks);
    after_group(tweak)
}
