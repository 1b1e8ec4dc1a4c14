//! Definitions and functions on bytes for ciphers and hashes: xor of lists, division into blocks, filling
//! with zeros, numbers written as bytes, and contents that are written and read; and the wipe and the
//! comparison of secrets. The definitions are in specs/, their lemmas in proofs/.
#![tactic(auto)]

mod comparison;
mod wiping;
mod words;

ghost use Rattle.std.specs.Prelude.{◌≡◌, length};
ghost use Rattle.byte_words.specs.Bytes.{AreBytes};
ghost use Rattle.byte_words.specs.Laws.{ContentsGrow, OtherBytesStay, WrittenBytesAreRead};
ghost use Rattle.byte_words.specs.Xor.{xor_bytes};

pub use comparison::is_same;
pub use wiping::{wipe, wipe_words};
pub use words::{read_word, write_words};

/// Xors `other` into `target`, byte by byte. Both must have the same length, in bytes.
pub fn xor_into(target: &mut [u8], other: &[u8])
    requires same_length { length target.old ≡ length other.now }
    ensures { target.new ≡ xor_bytes target.old other.now }
{
    for (i, mask) in other.iter().enumerate() {
        target[i] ^= *mask;
    }
}

/// Does nothing. Its contract is that the numbers of a slice are bytes, as the laws of ciphers require.
pub fn slice_is_bytes(bytes: &[u8])
    ensures { AreBytes bytes.now }
{
    let _length = bytes.len();
}

/// Does nothing. Its contract is the law of writing bytes into contents: they are read again, the other
/// bytes stay, and the contents grow up to the last byte that was written.
pub fn written_bytes_are_read()
    ensures written { WrittenBytesAreRead }
    ensures others { OtherBytesStay }
    ensures grow { ContentsGrow }
{}
