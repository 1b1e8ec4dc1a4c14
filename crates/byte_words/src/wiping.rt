//! Wiping of secrets: zeros are stored over them, even if nothing reads them afterwards.

ghost use Rattle.std.specs.Prelude.{◌≡◌, length, replicate};

/// Writes a zero over each byte.
///
/// A compiler removes stores that nothing reads, and with them the wipe of an array at the end of its
/// lifetime. It may not remove this call, which is never inlined. After the stores the call searches for
/// a byte that is zero, a loop of which LLVM doesn't know that it ends. The first byte is zero by then,
/// so neither a branch nor the time depends on the bytes that are wiped.
#[inline(never)]
pub fn wipe(bytes: &mut [u8])
    ensures { bytes.new ≡ replicate (length bytes.old) 0 }
{
    bytes.fill(0);
    'zeros: for i in 0..bytes.len() {
        if bytes[i] == 0 {
            return;
        }
        bytes[i..].fill(0);
    }
}

/// Writes a zero over each word, as [`wipe`] does over bytes.
///
/// Callers pass slices of at least two lengths. If all had the same, LLVM would make the length a constant,
/// and know that the search ends at once.
#[inline(never)]
pub fn wipe_words(words: &mut [u64])
    ensures { words.new ≡ replicate (length words.old) 0 }
{
    words.fill(0);
    'zeros: for i in 0..words.len() {
        if words[i] == 0 {
            return;
        }
        words[i..].fill(0);
    }
}
