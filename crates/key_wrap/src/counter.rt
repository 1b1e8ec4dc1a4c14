//! AES-256 in counter mode, for texts of at most four blocks.

ghost use Rattle.std.specs.Prelude.{◌≡◌, ◌≤◌, ◌+◌, ◌*◌, ◌%◌, ◌^◌, ◌++◌, length, drop};
ghost use Rattle.byte_words.specs.Blocks.{first_blocks};
ghost use Rattle.byte_words.specs.Numbers.{big_endian_bytes};
ghost use Rattle.aes_core.specs.Aes.{encrypted_block};
ghost use Rattle.key_wrap.specs.CounterMode.{counter_mode};

use aes_core::Aes256;
use byte_words::{wipe, xor_into};

// Encrypts the text in place, or decrypts it, which is the same.
pub(crate) fn xor_keystream(cipher: &Aes256, iv: &[u8; 16], text: &mut [u8])
    requires { length text.old ≤ 64 }
    ensures { text.new ≡ counter_mode (encrypted_block cipher.now) iv.now text.old }
{
    let mut stream = [0; 64];
    let first = u128::from_be_bytes(*iv);
    fill_keystream(cipher, first, &mut stream, text.len().div_ceil(16));
    xor_into(text, &stream[..text.len()]);
    wipe(&mut stream);
}

// Writes the encrypted counters, from the first one on, over the first blocks of the stream.
fn fill_keystream(cipher: &Aes256, first: u128, stream: &mut [u8; 64], blocks: usize)
    requires { blocks ≤ 4 }
    ensures { stream.new ≡ first_blocks
        (λ j. encrypted_block cipher.now (big_endian_bytes 16 ((first + j) % 2 ^ 128))) blocks
        ++ drop (16 * blocks) stream.old }
{
    'counters: for j in 0..blocks {
        let counter = first.wrapping_add(j as u128);
        let block = cipher.encrypt_block(counter.to_be_bytes());
        stream[16 * j..16 * j + 16].copy_from_slice(&block);
    }
}
