//! The digests at both ends: H_0, the variable-length hash H', each lane's first two blocks, and the tag
//! (RFC 9106, 3.2 and 3.3).

ghost use Rattle.std.specs.Prelude.{◌≡◌, ℕ, ◌+◌, ◌*◌, ◌<◌, ◌≤◌, List, ◌++◌, length, take, drop};
ghost use Rattle.blake2_core.specs.Words.{bytes_of_words};
ghost use Rattle.blake2_core.specs.Digest.{blake2b_digest};
ghost use Rattle.blake2_core.specs.Hasher.{Holds, output_length};
ghost use Rattle.byte_words.specs.Numbers.{little_endian_bytes};
ghost use Rattle.argon_kdf.specs.LongDigest.{chained_digest, long_digest};
ghost use Rattle.argon_kdf.specs.Filling.{first_block};
ghost use Rattle.argon_kdf.specs.Argon2id.{first_digest};

use crate::block::Block;
use crate::block_bytes::{from_bytes, to_bytes};
use crate::limits::{MAX_LANES, MAX_TEXT_BYTES};
use crate::{Costs, Texts};
use blake2_core::Blake2b;

const VERSION: u32 = 0x13;

const TYPE: u32 = 2;

const TAG_LEN: u32 = 32;

const BLOCK_LEN: u32 = 1024;

fn update_number(hasher: &mut Blake2b, number: u32)
    ensures length { output_length hasher.new ≡ output_length hasher.old }
    ensures added { (m : List ℕ) → Holds hasher.old m → Holds hasher.new (m ++ little_endian_bytes 4 number) }
{
    hasher.update(&number.to_le_bytes());
}

fn update_counted(hasher: &mut Blake2b, text: &[u8])
    requires { length text.now ≤ MAX_TEXT_BYTES }
    ensures length { output_length hasher.new ≡ output_length hasher.old }
    ensures added { (m : List ℕ) → Holds hasher.old m
        → Holds hasher.new (m ++ little_endian_bytes 4 (length text.now) ++ text.now) }
{
    update_number(hasher, text.len() as u32);
    hasher.update(text);
}

fn finish(hasher: Blake2b) -> [u8; 64]
    requires { output_length hasher ≡ 64 }
    ensures { (m : List ℕ) → Holds hasher m → result ≡ blake2b_digest 64 m }
{
    let mut digest = [0; 64];
    hasher.finish(&mut digest);
    digest
}

// Returns H_0, the digest of all inputs.
pub(crate) fn first_digest(costs: &Costs, texts: Texts) -> [u8; 64]
    requires password { length texts.password.now ≤ MAX_TEXT_BYTES }
    requires salt { length texts.salt.now ≤ MAX_TEXT_BYTES }
    requires secret { length texts.secret.now ≤ MAX_TEXT_BYTES }
    requires extra { length texts.extra.now ≤ MAX_TEXT_BYTES }
    ensures { result ≡ first_digest costs.now texts.entry.password.now texts.entry.salt.now
        texts.entry.secret.now texts.entry.extra.now }
{
    let mut hasher = Blake2b::new(64);
    update_number(&mut hasher, costs.lanes);
    update_number(&mut hasher, TAG_LEN);
    update_number(&mut hasher, costs.kib);
    update_number(&mut hasher, costs.passes);
    update_number(&mut hasher, VERSION);
    update_number(&mut hasher, TYPE);
    update_counted(&mut hasher, texts.password);
    update_counted(&mut hasher, texts.salt);
    update_counted(&mut hasher, texts.secret);
    update_counted(&mut hasher, texts.extra);
    finish(hasher)
}

fn first_value(h0: &[u8; 64], lane: u32, column: u32) -> [u8; 64]
    ensures { result
        ≡ chained_digest 1024 ((h0.now ++ little_endian_bytes 4 column) ++ little_endian_bytes 4 lane) 0 }
{
    let mut hasher = Blake2b::new(64);
    update_number(&mut hasher, BLOCK_LEN);
    hasher.update(h0);
    update_number(&mut hasher, column);
    update_number(&mut hasher, lane);
    finish(hasher)
}

fn next_value(value: &[u8; 64]) -> [u8; 64]
    ensures { result ≡ blake2b_digest 64 value.now }
{
    let mut hasher = Blake2b::new(64);
    hasher.update(value);
    finish(hasher)
}

fn write_half(bytes: &mut [u8; 1024], at: usize, value: &[u8; 64])
    requires { at + 32 ≤ 1024 }
    ensures { bytes.new ≡ take at bytes.old ++ (take 32 value.now ++ drop (at + 32) bytes.old) }
{
    bytes[at..at + 32].copy_from_slice(&value[..32]);
}

fn write_last(bytes: &mut [u8; 1024], value: &[u8; 64])
    ensures { bytes.new ≡ take 960 bytes.old ++ value.now }
{
    bytes[960..].copy_from_slice(value);
}

// Returns H' of 1,024 bytes, from the first digest of its chain.
fn stretched(mut value: [u8; 64]) -> [u8; 1024]
    ensures { (message : List ℕ) → value ≡ chained_digest 1024 message 0 → result ≡ long_digest 1024 message }
{
    let mut bytes = [0; 1024];
    'halves: for i in 0..30 {
        write_half(&mut bytes, 32 * i, &value);
        value = next_value(&value);
    }
    write_last(&mut bytes, &value);
    bytes
}

// Returns one of the first two blocks of a lane.
pub(crate) fn first_block(h0: &[u8; 64], lane: usize, column: usize) -> Block
    requires lane { lane < MAX_LANES }
    requires column { column < 2 }
    ensures { result ≡ first_block h0.now lane column }
{
    from_bytes(&stretched(first_value(h0, lane as u32, column as u32)))
}

// Writes the tag of the last column, from the xor of its lanes.
pub(crate) fn write_tag(sum: &Block, tag: &mut [u8; 32])
    ensures { tag.new ≡ long_digest 32 (bytes_of_words sum.now) }
{
    let mut hasher = Blake2b::new(32);
    update_number(&mut hasher, TAG_LEN);
    hasher.update(&to_bytes(sum));
    hasher.finish(tag);
}
