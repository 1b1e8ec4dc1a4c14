//! CBC with ciphertext stealing, form CS3 (NIST SP 800-38A, addendum), over AES-256.
#![tactic(auto)]

ghost use Rattle.std.specs.Prelude.{◌≡◌, ◌≤◌, length};
ghost use Rattle.cts_mode.specs.Laws.{DecryptionUndoes, EncryptsToBytes, LengthStays};
ghost use Rattle.cts_mode.specs.Cts.{cts_encrypted, cts_decrypted};

mod blocks;
mod chain;

use aes_core::Aes256;
use blocks::{block_from, filled, whole, xor};
use byte_words::xor_into;
use chain::{chain, unchain};

/// Encrypts `text`, of at least 16 bytes, in place; its length stays.
pub fn cts_encrypt(key: &Aes256, iv: [u8; 16], text: &mut [u8])
    requires one_block { 16 ≤ length text.old }
    ensures { text.new ≡ cts_encrypted key.now iv text.old }
{
    if text.len() == 16 {
        chain(key, iv, text);
        return;
    }
    let end = 16 * ((text.len() - 1) / 16);
    let (blocks, last) = text.split_at_mut(end);
    let stolen = chain(key, iv, blocks);
    let final_block = key.encrypt_block(xor(filled(last), stolen));
    last.copy_from_slice(&stolen[..last.len()]);
    blocks[end - 16..].copy_from_slice(&final_block);
}

/// Decrypts `text`, of at least 16 bytes, in place: the inverse of `cts_encrypt`, for every text.
pub fn cts_decrypt(key: &Aes256, iv: [u8; 16], text: &mut [u8])
    requires one_block { 16 ≤ length text.old }
    ensures { text.new ≡ cts_decrypted key.now iv text.old }
{
    if text.len() == 16 {
        unchain(key, iv, text);
        return;
    }
    let end = 16 * ((text.len() - 1) / 16);
    let (blocks, last) = text.split_at_mut(end);
    let last_plain = key.decrypt_block(block_from(blocks, end - 16));
    let stolen = whole(last, last_plain);
    xor_into(last, &last_plain[..last.len()]);
    blocks[end - 16..].copy_from_slice(&stolen);
    unchain(key, iv, blocks);
}

/// Does nothing. Its contract is three laws, for every key, iv and text of at least 16 bytes: decryption
/// undoes encryption, encryption makes bytes of bytes, and neither changes the length.
pub fn decryption_undoes_encryption()
    ensures decrypted { DecryptionUndoes }
    ensures bytes { EncryptsToBytes }
    ensures encrypted_length { LengthStays cts_encrypted }
    ensures decrypted_length { LengthStays cts_decrypted }
{}
