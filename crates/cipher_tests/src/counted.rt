//! Bytes that count.

// Bytes that count up from 0, and from 0 again after 255.
pub(crate) fn counted<const N: usize>() -> [u8; N] {
    let mut bytes = [0; N];
    for (i, byte) in bytes.iter_mut().enumerate() {
        *byte = (i % 256) as u8;
    }
    bytes
}

// Byte i is (7 i + 3) modulo 256.
pub(crate) fn counted_by_sevens<const N: usize>() -> [u8; N] {
    let mut bytes = [0; N];
    for (i, byte) in bytes.iter_mut().enumerate() {
        *byte = ((i % 256 * 7 + 3) % 256) as u8;
    }
    bytes
}
