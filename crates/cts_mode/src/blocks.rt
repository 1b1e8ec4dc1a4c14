//! Blocks of 16 bytes as values: read from a text, filled with zeros, completed, xored.
ghost use Rattle.std.specs.Prelude.{◌≡◌, ◌+◌, ◌≤◌, ◌++◌, length, drop};
ghost use Rattle.std.specs.List.{between};
ghost use Rattle.byte_words.specs.Xor.{xor_bytes, zero_filled};

use byte_words::xor_into;

// Returns the 16 bytes of the text from `at` on.
pub(crate) fn block_from(text: &[u8], at: usize) -> [u8; 16]
    requires { at + 16 ≤ length text.now }
    ensures { result ≡ between at (at + 16) text.now }
{
    let mut block = [0; 16];
    block.copy_from_slice(&text[at..at + 16]);
    block
}

// Returns the piece with zeros after it.
pub(crate) fn filled(piece: &[u8]) -> [u8; 16]
    requires { length piece.now ≤ 16 }
    ensures { result ≡ zero_filled 16 piece.now }
{
    whole(piece, [0; 16])
}

// Returns the piece with the rest of the block after it.
pub(crate) fn whole(piece: &[u8], mut block: [u8; 16]) -> [u8; 16]
    requires { length piece.now ≤ 16 }
    ensures { result ≡ piece.now ++ drop (length piece.now) block }
{
    block[..piece.len()].copy_from_slice(piece);
    block
}

pub(crate) fn xor(mut block: [u8; 16], mask: [u8; 16]) -> [u8; 16]
    ensures { result ≡ xor_bytes block mask }
{
    xor_into(&mut block, &mask);
    block
}
