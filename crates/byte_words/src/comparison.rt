//! The comparison of secrets.

ghost use Rattle.std.specs.Prelude.{◌≡◌, length};
ghost use Rattle.std.specs.Str.{bytes_eq};

/// Returns whether two secrets of the same length are equal. By the form of the code every byte of both
/// is read, wherever the first difference is: there is no early exit, as `==` has one.
pub fn is_same(one: &[u8], other: &[u8]) -> bool
    requires same_length { length one.now ≡ length other.now }
    ensures { result ≡ bytes_eq one.now other.now }
{
    let mut difference = 0;
    'bytes: for i in 0..one.len() {
        difference |= one[i] ^ other[i];
    }
    difference == 0
}
