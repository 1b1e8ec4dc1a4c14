//! The comparison of bytes. It is proved once, here, and not at each use.

use std::process::Abort;

// Asserts that the bytes are the expected ones.
pub(crate) fn same_bytes<A: Abort>(rt: &A, got: &[u8], wanted: &[u8]) {
    assert!(rt; got == wanted, "{got:?} in place of {wanted:?}");
}
