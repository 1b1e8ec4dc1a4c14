//! How bytes are compared with digits and texts. Each comparison is proved once, here, and not at each use.

use std::alloc::Global;
use std::process::Abort;

// That the bytes have these digits; else the test fails, and prints the digits of both.
pub(crate) fn expect_digits<A: Abort>(rt: &A, alloc: Global, bytes: &[u8], digits: &str) {
    let found = hex::encode(alloc, bytes).expect(rt, "memory");
    assert_eq!(rt; found.as_str(), digits);
}

// That the bytes are the expected ones; else the test fails, and prints what they are about.
pub(crate) fn expect_same<A: Abort>(rt: &A, found: &[u8], wanted: &[u8], about: &str) {
    assert_eq!(rt; found, wanted, "{about}");
}
