//! CBC in place over whole blocks (NIST SP 800-38A, section 6.2).
ghost use Rattle.std.specs.Prelude.{◌≡◌, ◌/◌, ◌%◌, suc, length};
ghost use Rattle.aes_core.specs.Aes.{encrypted_block, decrypted_block};
ghost use Rattle.byte_words.specs.Blocks.{first_blocks};
ghost use Rattle.cts_mode.specs.Cbc.{cbc_block, plain_block};

use crate::blocks::{block_from, xor};
use aes_core::Aes256;

// Encrypts the text in place. Returns the last block, or the iv if there is none.
pub(crate) fn chain(key: &Aes256, iv: [u8; 16], text: &mut [u8]) -> [u8; 16]
    requires whole_blocks { length text.old % 16 ≡ 0 }
    ensures blocks { text.new ≡ first_blocks
        (λ j. cbc_block (encrypted_block key.now) iv text.old (suc j)) (length text.old / 16) }
    ensures last { result ≡ cbc_block (encrypted_block key.now) iv text.old (length text.old / 16) }
{
    let mut previous = iv;
    for j in 0..text.len() / 16 {
        previous = key.encrypt_block(xor(block_from(text, 16 * j), previous));
        text[16 * j..16 * j + 16].copy_from_slice(&previous);
    }
    previous
}

// Decrypts the text in place.
pub(crate) fn unchain(key: &Aes256, iv: [u8; 16], text: &mut [u8])
    requires whole_blocks { length text.old % 16 ≡ 0 }
    ensures { text.new
        ≡ first_blocks (plain_block (decrypted_block key.now) iv text.old) (length text.old / 16) }
{
    let mut previous = iv;
    for j in 0..text.len() / 16 {
        let block = block_from(text, 16 * j);
        let plain = xor(key.decrypt_block(block), previous);
        text[16 * j..16 * j + 16].copy_from_slice(&plain);
        previous = block;
    }
}
