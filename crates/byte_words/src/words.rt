//! Words of 64 bits, written in 8 bytes each with the low byte first.

ghost use Rattle.std.specs.Prelude.{◌≡◌, ◌+◌, ◌*◌, ◌≤◌, length};
ghost use Rattle.byte_words.specs.Words.{bytes_of_words, word_at};

/// Returns word `i` of the bytes, counted from 0.
#[inline]
pub fn read_word(bytes: &[u8], i: usize) -> u64
    requires within { 8 * i + 8 ≤ length bytes.now }
    ensures { result ≡ word_at bytes.now i }
{
    let at = 8 * i;
    u64::from_le_bytes([
        bytes[at],
        bytes[at + 1],
        bytes[at + 2],
        bytes[at + 3],
        bytes[at + 4],
        bytes[at + 5],
        bytes[at + 6],
        bytes[at + 7],
    ])
}

/// Writes the words to `out`, which must have 8 bytes for each.
pub fn write_words(words: &[u64], out: &mut [u8])
    requires room { length out.old ≡ 8 * length words.now }
    ensures { out.new ≡ bytes_of_words words.now }
{
    'words: for (i, word) in words.iter().enumerate() {
        out[8 * i..8 * i + 8].copy_from_slice(&word.to_le_bytes());
    }
}
