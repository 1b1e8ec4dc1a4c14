//! One block of a data unit, and the tweaks of blocks.

ghost use Rattle.std.specs.Prelude.{◌≡◌, ◌*◌, ◌+◌, ◌≤◌, length};
ghost use Rattle.byte_words.specs.Blocks.{block_at};
ghost use Rattle.aes_core.specs.Aes.{decrypted_block, encrypted_block};
ghost use Rattle.xts_mode.specs.Xts.{times_alpha, tweaked};

use aes_core::Aes256;
use byte_words::xor_into;

// Block `j` of a unit.
pub(crate) fn block_at(unit: &[u8], j: usize) -> [u8; 16]
    requires { 16 * j + 16 ≤ length unit.now }
    ensures { result ≡ block_at 16 unit.now j }
{
    let mut block = [0; 16];
    block.copy_from_slice(&unit[16 * j..16 * j + 16]);
    block
}

// A tweak times α: the tweak of the next block.
#[inline]
pub(crate) fn times_alpha(tweak: u128) -> u128
    ensures { result ≡ times_alpha tweak }
{
    (tweak << 1) ^ ((tweak >> 127) * 0x87)
}

// Encrypts a block between two additions of its tweak.
pub(crate) fn encrypt_tweaked(key: &Aes256, tweak: u128, block: [u8; 16]) -> [u8; 16]
    ensures { result ≡ tweaked (encrypted_block key.now) tweak block }
{
    let mask = tweak.to_le_bytes();
    let mut text = block;
    xor_into(&mut text, &mask);
    let mut sealed = key.encrypt_block(text);
    xor_into(&mut sealed, &mask);
    sealed
}

// Decrypts a block between two additions of its tweak.
pub(crate) fn decrypt_tweaked(key: &Aes256, tweak: u128, block: [u8; 16]) -> [u8; 16]
    ensures { result ≡ tweaked (decrypted_block key.now) tweak block }
{
    let mask = tweak.to_le_bytes();
    let mut sealed = block;
    xor_into(&mut sealed, &mask);
    let mut plain = key.decrypt_block(sealed);
    xor_into(&mut plain, &mask);
    plain
}
