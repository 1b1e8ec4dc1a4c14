//! Blocks from bytes, and their bytes.

ghost use Rattle.std.specs.Prelude.{◌≡◌};
ghost use Rattle.byte_words.specs.Words.{bytes_of_words};
ghost use Rattle.argon_kdf.specs.Blocks.{block_of};

use crate::block::{BLOCK_WORDS, Block, ZERO_BLOCK};
use byte_words::{read_word, write_words};

// Returns the block of these bytes. Each word is little-endian.
pub(crate) fn from_bytes(bytes: &[u8; 1024]) -> Block
    ensures { result ≡ block_of bytes.now }
{
    let mut block = ZERO_BLOCK;
    'words: for i in 0..BLOCK_WORDS {
        block[i] = read_word(bytes, i);
    }
    block
}

// Returns the bytes of a block.
pub(crate) fn to_bytes(block: &Block) -> [u8; 1024]
    ensures { result ≡ bytes_of_words block.now }
{
    let mut bytes = [0; 1024];
    write_words(block, &mut bytes);
    bytes
}
