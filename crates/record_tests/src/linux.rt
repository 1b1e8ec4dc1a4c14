//! Names, targets and policies that a Linux kernel made, compared with ours.
ghost use Rattle.std.specs.Prelude.{◌≡◌, ◌<◌};

use crate::linux_vectors::{NAMES, RAW, TARGETS};
use crate::linux_vectors_by_mode::{NAMES_BY_MODE, POLICIES, TARGETS_BY_MODE};
use crate::spelled::{expect_digits, expect_same};
use fsc_keys::{FileKey, KeyKind, RawKey, file_key, key_id, mode_key};
use name_crypt::{Plain, Steps, StoredName, decrypt_name, encrypt_name, nokey_matches, nokey_text};
use policy_ctx::{Pad, decode_policy, encode_policy};
use std::alloc::Global;
use std::marker::Brand;
use std::process::Abort;
use std::sync::ledger::{Blank, Ledger};

/// The names key of a directory or a symlink with this nonce.
fn names_key(raw: &RawKey, nonce: &str) -> Option<[u8; 32]> {
    let mut bytes = [0; 16];
    hex::decode_to_slice(nonce, &mut bytes).ok()?;
    match file_key(raw, KeyKind::Names, &bytes) {
        FileKey::Names(key) => Some(key),
        FileKey::Contents(_) => None,
    }
}

/// The key of all names under a policy with a key for each mode.
fn names_mode_key(raw: &RawKey) -> Option<[u8; 32]> {
    match mode_key(raw, KeyKind::Names) {
        FileKey::Names(key) => Some(key),
        FileKey::Contents(_) => None,
    }
}

/// The iv of what is stored in the directory, or as the target of the link, of this number: the
/// number times 2^32 as 8 bytes, the lowest first, and 8 zeros.
fn iv_of(number: u32) -> [u8; 16] {
    let start = u64::from(number) * (1 << 32);
    let mut iv = [0; 16];
    iv[..8].copy_from_slice(&start.to_le_bytes());
    iv
}

/// The stored name, counted on a ledger of its own.
fn stored_once<L: Ledger>(
    blank: Blank,
    key: &[u8; 32],
    iv: [u8; 16],
    pad: Pad,
    name: &Plain,
) -> StoredName
    requires name { blank.name ≡ L.name }
    requires parts { blank.parts ≡ L.parts }
    requires some { 0 < L.parts }
{
    let mut steps = Steps::<L>::new(blank);
    encrypt_name(key, iv, pad, name, &mut steps)
}

// The stored name, which is to have these digits and to be read back.
fn stored_so<A: Abort>(
    rt: &A,
    alloc: Global,
    key: &[u8; 32],
    iv: [u8; 16],
    pad: Pad,
    texts: (&str, &str),
) -> StoredName {
    let plain = hex::decode(alloc, texts.0).expect(rt, "digits");
    let name = Plain::read(&plain).expect(rt, "a name");
    let stored = stored_once::<Brand>(Blank::new(1), key, iv, pad, &name);
    expect_digits(rt, alloc, stored.bytes(), texts.1);
    assert!(rt; decrypt_name(key, iv, &stored) == Ok(name));
    stored
}

// The raw key under which everything here was stored.
pub(crate) fn raw_key<A: Abort>(rt: &A, alloc: Global) -> RawKey {
    raw_key_of(rt, alloc, RAW)
}

// The raw key of these digits.
pub(crate) fn raw_key_of<A: Abort>(rt: &A, alloc: Global, digits: &str) -> RawKey {
    let bytes = hex::decode(alloc, digits).expect(rt, "digits");
    RawKey::read(&bytes).expect(rt, "a raw key")
}

#[test]
fn names_are_those_of_linux(rt: HostRuntime) {
    let raw = raw_key(&rt, rt.alloc());
    for known in &NAMES {
        let key = names_key(&raw, known.nonce).expect(&rt, "a names key");
        let texts = (known.plain, known.stored);
        let stored = stored_so(&rt, rt.alloc(), &key, [0; 16], known.pad, texts);
        expect_nokey(&rt, &stored, known.listed);
    }
}

// That the stored name is listed so without its key.
pub(crate) fn expect_nokey<A: Abort>(rt: &A, stored: &StoredName, listed: &str) {
    expect_same(rt, nokey_text(stored).bytes(), listed.as_bytes(), listed);
    assert!(rt; nokey_matches(listed.as_bytes(), stored));
}

#[test]
fn targets_are_those_of_linux(rt: HostRuntime) {
    let raw = raw_key(&rt, rt.alloc());
    for known in &TARGETS {
        let key = names_key(&raw, known.nonce).expect(&rt, "a names key");
        let texts = (known.plain, known.stored);
        let _stored = stored_so(&rt, rt.alloc(), &key, [0; 16], Pad::P32, texts);
    }
}

#[test]
fn names_under_a_mode_key_are_those_of_linux(rt: HostRuntime) {
    let key = names_mode_key(&raw_key(&rt, rt.alloc())).expect(&rt, "a names key");
    for known in &NAMES_BY_MODE {
        let texts = (known.plain, known.stored);
        let iv = iv_of(known.directory);
        let stored = stored_so(&rt, rt.alloc(), &key, iv, known.pad, texts);
        expect_nokey(&rt, &stored, known.listed);
    }
}

#[test]
fn targets_under_a_mode_key_are_those_of_linux(rt: HostRuntime) {
    let key = names_mode_key(&raw_key(&rt, rt.alloc())).expect(&rt, "a names key");
    for known in &TARGETS_BY_MODE {
        let texts = (known.plain, known.stored);
        let _stored = stored_so(&rt, rt.alloc(), &key, iv_of(known.link), known.pad, texts);
    }
}

// Each names the key under which everything here was stored.
#[test]
fn policies_that_linux_took_decode(rt: HostRuntime) {
    let id = key_id(&raw_key(&rt, rt.alloc()));
    for &known in &POLICIES {
        let bytes = hex::decode(rt.alloc(), known).expect(&rt, "digits");
        let policy = decode_policy(&bytes).expect(&rt, "a policy");
        assert!(rt; policy.id == id, "{known}");
        expect_digits(&rt, rt.alloc(), &encode_policy(&policy), known);
    }
}
