//! Wrapped secrets against another implementation.

use crate::counted::{counted, counted_by_sevens};
use key_wrap::{TagDiffers, unwrap, wrap};

// The key counts up from 0.
fn counted_key() -> [u8; 32] {
    counted()
}

// Whether the secret, of at most 64 bytes, is wrapped to these bytes, with this tag.
fn is_wrapped_to(secret: &[u8], iv: &[u8; 16], want: &[u8], want_tag: &[u8; 32]) -> bool {
    if secret.len() > 64 {
        return false;
    }
    let mut out = [0; 64];
    let out = &mut out[..secret.len()];
    let tag = wrap(&counted_key(), iv, secret, out);
    &*out == want && tag == *want_tag
}

// Whether these bytes, at most 64, unwrap with the tag to the secret.
fn opens_to(wrapped: &[u8], iv: &[u8; 16], tag: &[u8; 32], secret: &[u8]) -> bool {
    if wrapped.len() > 64 {
        return false;
    }
    let mut out = [0; 64];
    let out = &mut out[..wrapped.len()];
    let opened = unwrap(&counted_key(), iv, wrapped, tag, out);
    opened == Ok(()) && &*out == secret
}

// An iv, the result of wrapping the secret's beginning with it, and the tag.
type WrapRow = (&'static [u8; 16], &'static [u8], &'static [u8; 32]);

// Made by Python's `cryptography` (HKDF, AES in counter mode) and its hmac and hashlib. The last iv
// is 16 bytes 255, so that the counter of the second block is 0.
static WRAPS: [WrapRow; 3] = [
    (
        b"defghijklmnopqrs",
        b"\xde\x2f\x9c\x36\x74\x28\x6d",
        b"\xe0\xa7\x2b\xcf\xb4\x75\x32\x78\xbe\x16\xf0\x3f\x14\xac\x15\xde\
          \x1c\x09\x33\x8d\x4d\xc3\xca\xa3\xec\x91\xd9\x04\x01\x47\x8b\xcf",
    ),
    (
        b"defghijklmnopqrs",
        b"\xde\x2f\x9c\x36\x74\x28\x6d\x86\xaa\xad\xf6\xc9\xc2\x47\x7a\x1f\
          \x5b\xf5\x2d\xb6\xc0\x9d\xdb\xd4\xfd\x96\xe4\x90\x86\x3a\x20\x84",
        b"\x6f\x30\xcd\x81\x4b\x03\x20\x49\x43\x35\xa1\x04\x1c\x0f\x78\xa9\
          \x45\xfb\x2b\x26\xab\x54\xc7\x8a\x3a\x3b\xc3\xec\x69\x0a\xe4\x3c",
    ),
    (
        &[255; 16],
        b"\x9c\x0c\x45\xcb\x6c\x44\x72\xc8\x26\x59\xd7\xd5\xa1\x16\x17\x92\
          \x8e\xa9\x97\xd3\x5e\x2e\x1c\x0f\x46\xb0\xae\x2d\xca\xfa\xbb\xc3\
          \xdb\xe8\x6c\x2e\x6e\xb8\x9d\x22\xd2\x1a\xe0\x49\xdd\x08\x6d\xfa\
          \x45\xf5\xfc\x13\xa4\x35\x90\x97\xea\xb4\x53\xf5\x29\x98\xea\xbd",
        b"\x31\x55\x35\x87\x73\x9d\xf1\xba\x0f\xa2\x91\x60\xab\x05\xdc\x59\
          \xd9\x61\x46\x89\x8d\x4e\xfa\x2f\x08\xdd\x84\x8f\xdf\xf0\x94\xfd",
    ),
];

#[test]
fn wrapped_secrets_are_those_of_python(rt: HostRuntime) {
    let secret = counted_by_sevens::<64>();
    for (iv, want, want_tag) in &WRAPS {
        assert!(rt; want.len() <= 64);
        let secret = &secret[..want.len()];
        assert!(rt;
            is_wrapped_to(secret, iv, want, want_tag),
            "{} bytes",
            want.len()
        );
        assert!(rt;
            opens_to(want, iv, want_tag, secret),
            "{} bytes open",
            want.len()
        );
    }
}

#[test]
fn a_changed_tag_byte_refuses_and_leaves_out(rt: HostRuntime) {
    let (key, secret, iv) = (counted_key(), counted_by_sevens::<64>(), [255; 16]);
    let mut wrapped = [0; 64];
    let tag = wrap(&key, &iv, &secret, &mut wrapped);
    for place in [0, 1, 15, 30, 31] {
        let mut changed = tag;
        changed[place] ^= 0x80;
        let mut out = [9; 64];
        let opened = unwrap(&key, &iv, &wrapped, &changed, &mut out);
        assert!(rt; opened == Err(TagDiffers), "byte {place}");
        assert!(rt; out == [9; 64], "out at byte {place}");
    }
}
