//! Keys that are derived from raw keys.

use crate::linux::raw_key_of;
use crate::spelled::{expect_digits, expect_same};
use fsc_keys::{
    FileKey, KeyKind, KeySize, PreparedKey, RawKey, descriptor, file_key, key_id, mode_key,
};
use std::alloc::Global;
use std::process::Abort;

// Identifiers that Linux 6.1 gave to these raw keys.
#[test]
fn identifiers_are_those_of_linux(rt: HostRuntime) {
    let cases = [
        (
            "04546cd84c7f60b84669f968838779221467a0dd9d78c03803c18ff6f0f6c894",
            "1fe169291979d68dd4e8bf77b8d30480",
        ),
        (
            "04546cd84c7f60b84669f968838779221467a0dd9d78c03803c18ff6f0f6c89459461e43f8cd9ae4df004ab457a3a947",
            "eb36d157c092dce338e2ce8a410841b5",
        ),
        (
            "04546cd84c7f60b84669f968838779221467a0dd9d78c03803c18ff6f0f6c894\
             59461e43f8cd9ae4df004ab457a3a9471629dbd3ddebeedbf7a471f178f38ff2",
            "ef61925141c10e0f7f3d467b9a4e2770",
        ),
        (
            "000102030405060708090a0b0c0d0e0f101112131415161718191a1b1c1d1e1f\
             202122232425262728292a2b2c2d2e2f303132333435363738393a3b3c3d3e3f",
            "8699c2c53707405da5aba5ae4d8583c0",
        ),
    ];
    for (raw, want) in cases {
        let raw = raw_key_of(&rt, rt.alloc(), raw);
        let id = key_id(&raw);
        expect_digits(&rt, rt.alloc(), &id.0, want);
        assert!(rt; PreparedKey::new(raw).id() == id);
    }
}

// The keys that Python's hmac and hashlib derive for these nonces.
#[test]
fn file_keys_are_those_of_python(rt: HostRuntime) {
    let cases = [
        (
            32,
            "69f0e507a4c0bf3a2cc0a43351e5f193",
            "475d5423547776b1e7e6d5f5fd8456146c4d5ea6115fac71e015c8da5101e7a0\
             83dc212ac9c6d8f4f3e83b6665061635ddaf24f8a8489e4db398a769cb6a4abd",
            "475d5423547776b1e7e6d5f5fd8456146c4d5ea6115fac71e015c8da5101e7a0",
        ),
        (
            64,
            "000102030405060708090a0b0c0d0e0f",
            "4512b215533c25be04c7f0f1a77644bf4e9953a123ad626d9f78dd538f2cb6d2\
             ec4309f2c8cac5780dd3cc5998fe276d84c8fbf3e33e175fe6a3cc47352c5ba3",
            "4512b215533c25be04c7f0f1a77644bf4e9953a123ad626d9f78dd538f2cb6d2",
        ),
    ];
    for (len, nonce, contents, names) in cases {
        let raw = counting_key(len).expect(&rt, "a key");
        let mut bytes = [0; 16];
        hex::decode_to_slice(nonce, &mut bytes).expect(&rt, "digits");
        expect_key(
            &rt,
            rt.alloc(),
            file_key(&raw, KeyKind::Contents, &bytes),
            contents,
        );
        expect_key(
            &rt,
            rt.alloc(),
            file_key(&raw, KeyKind::Names, &bytes),
            names,
        );
        let prepared = PreparedKey::new(raw).file_key(KeyKind::Names, &bytes);
        expect_key(&rt, rt.alloc(), prepared, names);
    }
}

// The keys of modes that Python's hmac and hashlib derive.
#[test]
fn mode_keys_are_those_of_python(rt: HostRuntime) {
    let cases = [
        (
            32,
            "7feed09c426c995d1f1ecf8c91b3b3c92b1db236d52458b081f4acf7b7d2cecd\
             1fea89f0f806954b5d8f1f86659dd7a619698e08f27f62ce10cee88b1f19bcef",
            "b5c3330e2f077836e9f6b1410e1d43f9c2ceade5355f8597517926d594262e1a",
        ),
        (
            64,
            "9c621e403c192295d98e7fc9eedc07eecb1381239e734a752102ce4617295eaf\
             0cc48e789014e0bae5a67af6097aac1beaa57fcd07cccbfd8247b9e90d2b515b",
            "614c06b7dc359c57e3e7f5332dbd39660d93411156efa17516fca65d9efda9fa",
        ),
    ];
    for (len, contents, names) in cases {
        let raw = counting_key(len).expect(&rt, "a key");
        expect_key(&rt, rt.alloc(), mode_key(&raw, KeyKind::Contents), contents);
        expect_key(&rt, rt.alloc(), mode_key(&raw, KeyKind::Names), names);
        let prepared = PreparedKey::new(raw).mode_key(KeyKind::Names);
        expect_key(&rt, rt.alloc(), prepared, names);
    }
}

/// The key 00, 01, 02 and so on, of as many bytes.
fn counting_key(len: usize) -> Result<RawKey, KeySize> {
    let mut counting = [0; 64];
    for i in 0..64 {
        counting[i] = i as u8;
    }
    RawKey::read(counting.get(..len).unwrap_or(&[]))
}

// That the key has these digits.
fn expect_key<A: Abort>(rt: &A, alloc: Global, key: FileKey, digits: &str) {
    match key {
        FileKey::Contents(key) => expect_digits(rt, alloc, &key, digits),
        FileKey::Names(key) => expect_digits(rt, alloc, &key, digits),
    }
}

// Python's hashlib: the first 8 bytes of SHA-512 of SHA-512.
#[test]
fn descriptors_are_those_of_python(rt: HostRuntime) {
    expect_same(&rt, &descriptor(&[0; 32]), b"6d78a62a9362b617", "32 zeros");
    expect_same(&rt, &descriptor(&[1; 32]), b"509eafe591531d4f", "32 ones");
    expect_same(&rt, &descriptor(&[]), b"826df068457df5dd", "nothing");
}

#[test]
fn raw_keys_have_32_to_64_bytes(rt: HostRuntime) {
    let bytes = [7; 66];
    for (len, read) in [(0, false), (31, false), (32, true), (64, true), (65, false)] {
        match RawKey::read(&bytes[..len]) {
            Ok(key) => assert!(rt; read && key.bytes().len() == len),
            Err(fault) => assert!(rt; !read && fault.len == len),
        }
    }
}

#[test]
fn keys_that_are_wiped_are_zeros(rt: HostRuntime) {
    let mut key = RawKey::read(&[7; 40]).expect(&rt, "a key");
    let mut prepared = PreparedKey::new(RawKey::read(&[7; 40]).expect(&rt, "a key"));
    key.wipe();
    expect_same(&rt, key.bytes(), &[0; 40], "a key that was wiped");
    prepared.wipe();
    expect_same(
        &rt,
        prepared.bytes(),
        &[0; 40],
        "a prepared key that was wiped",
    );
    assert!(rt; prepared.id() == key_id(&key));
}
