//! Texts for the tests, and how they are compared. Each comparison is proved once, here, and not in each
//! test.

use std::alloc::{AllocError, Global};
use std::process::Abort;

// Returns a text, followed by another.
pub(crate) fn joined(alloc: Global, text: &str, more: &str) -> Result<String, AllocError> {
    let mut whole = String::from_str(alloc, text)?;
    whole.push_str(more)?;
    Ok(whole)
}

// Expects this text. Otherwise the test fails, and prints what the text is about.
pub(crate) fn same<A: Abort>(rt: &A, got: &str, wanted: &str, about: &str) {
    assert!(rt; got == wanted, "{about}: {got:?} in place of {wanted:?}");
}

// Expects that memory sufficed for the text, and that it is this one.
pub(crate) fn expect_same<A: Abort>(
    rt: &A,
    made: Result<String, AllocError>,
    wanted: &str,
    about: &str,
) {
    same(rt, made.expect(rt, "memory").as_str(), wanted, about);
}

// Expects these bytes.
pub(crate) fn same_bytes<A: Abort>(rt: &A, got: &[u8], wanted: &[u8], about: &str) {
    assert!(rt; got == wanted, "{about}: {got:?} in place of {wanted:?}");
}
