//! The position of a byte in a text.

ghost use Rattle.std.specs.Prelude.{◌≡◌, ◌==◌};
ghost use Rattle.std.specs.List.{position_or_len};

use memchr::memchr;

/// Returns the index of the first byte equal to `mark`, or the length of the text if there is none.
pub fn place_of(text: &[u8], mark: u8) -> usize
    ensures { result ≡ position_or_len (λ b. b == mark) text.now }
{
    memchr(mark, text).unwrap_or(text.len())
}
