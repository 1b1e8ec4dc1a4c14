//! The digest of a file's contents, from the lines of its blocks.

ghost use Rattle.std.specs.Prelude.{◌≡◌, ◌≤◌, Some, None, length};
ghost use Rattle.sha2.specs.Sha256.{sha256};
ghost use Rattle.mount_limits.specs.declared.TheConstants.{MAX_FILE_BYTES};
ghost use Rattle.text_words.specs.Lines.{pieces_of};
ghost use Rattle.data_crypt.specs.Blocks.{read_contents};
ghost use Rattle.data_crypt.specs.Ciphers.{seal_by};
ghost use Rattle.image_lines.specs.WordForms.{blocks_at};
ghost use Rattle.image_lines.specs.NodeRules.{blocks_for};
ghost use Rattle.tree_listing.specs.Sights.{visible_digest, sight_of};

use crate::ciphers::fill;
use crate::reader::Reader;
use data_crypt::{FileCipher, read_block, wipe_cipher};
use image_lines::read_block_line;
use mount_limits::BLOCK_SIZE;
use policy_ctx::CONTEXT_LEN;
use sha2::{Digest, Sha256};
use text_words::next_line;

// Returns the SHA-256 of the contents of a file of this number, size and context, if they can be read.
// The first of the `lines` are those of its blocks.
pub(crate) fn digest_shown(
    reader: &Option<Reader<'_>>,
    number: u32,
    context: &Option<[u8; CONTEXT_LEN]>,
    size: u32,
    lines: &[u8],
) -> Option<[u8; 32]>
    requires blocks { length (blocks_at (pieces_of lines.now)) ≡ blocks_for size }
    requires small { size ≤ MAX_FILE_BYTES }
    ensures { result ≡ visible_digest (sight_of reader.now context.now) number
        (blocks_at (pieces_of lines.now)) size }
{
    match context {
        None => Some(digest_of(&None, size, lines)),
        Some(context) => match reader {
            Some(reader) if reader.opens(context) => {
                let mut cipher = Some(FileCipher::zeros());
                fill(&mut cipher, reader, context, number);
                let digest = digest_of(&cipher, size, lines);
                wipe_cipher(&mut cipher);
                Some(digest)
            }
            _ => None,
        },
    }
}

// Returns the SHA-256 of the contents of `size` bytes whose blocks are on the first lines.
fn digest_of(cipher: &Option<FileCipher>, size: u32, lines: &[u8]) -> [u8; 32]
    requires blocks { length (blocks_at (pieces_of lines.now)) ≡ blocks_for size }
    requires small { size ≤ MAX_FILE_BYTES }
    ensures { result ≡ sha256 (read_contents (seal_by cipher.now) size (blocks_at (pieces_of lines.now))) }
{
    let mut hasher = Sha256::new();
    let mut rest = lines;
    'blocks: for index in 0..size.div_ceil(BLOCK_SIZE as u32) {
        let line = next_line(rest);
        let Some(mut block) = read_block_line(line.bytes) else {
            unreachable!();
        };
        read_block(cipher, index, &mut block);
        let left = size as usize - BLOCK_SIZE * index as usize;
        hasher.update(&block[..left.min(BLOCK_SIZE)]);
        rest = line.rest;
    }
    hasher.finalize()
}
