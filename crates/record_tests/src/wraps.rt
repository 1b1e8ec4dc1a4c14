//! Records of policies, and the wraps in them.

use crate::protectors::{BACKUP, LOGIN, protector_key, record, with_line};
use crate::spelled::expect_same;
use fsc_keys::{KeyId, RawKey, key_id};
use key_wrap::unwrap;
use protector_meta::{
    MetaFault, PolicyFile, Wrap, WrapFault, add_protector, decode_policy_file, decode_protector,
    drop_protector, encode_policy_file,
};
use std::alloc::{AllocError, Global};
use std::process::Abort;

/// A policy of the protectors LOGIN and BACKUP, made outside.
pub(crate) static DOCS: [&[u8]; 5] = [
    b"fsc-policy 1",
    b"name docs",
    b"id 8a25df4cd4f408b30828b727c5177ce5",
    b"wrap login 3453e2154c9546fb81b5f4e3fa894441 \
      6992de0806f04dcc84e29326769d995e1c57a0c2589b41636113d6b546c3c7e8\
      81ea3ae9399f11f36b16015dec87a26f0392c991986d56208fa7a96dd4ec0f68 \
      4fe2e562a639cd9b163183f29b2e333eac10776ac9f9dbe64bde76724252ce6a",
    b"wrap backup 374e522006d06f2545e9e210c82db0d4 \
      7a12fde15e57c88d43239254c453e4d32509cab2b2ab0632bc979e1e38aabb62\
      ebcd679fcc667a8e220405b40d47aedb12f30ead31df925aaf44501fb92f2d76 \
      12cd0dbaceaed77d974f585734602d5c7dbb0fa8756bc636eca3469b0e8fce8b",
];

/// The text after the label in a wrap line.
const WRAPPED: &[u8] = b" 374e522006d06f2545e9e210c82db0d4 \
      7a12fde15e57c88d43239254c453e4d32509cab2b2ab0632bc979e1e38aabb62\
      ebcd679fcc667a8e220405b40d47aedb12f30ead31df925aaf44501fb92f2d76 \
      12cd0dbaceaed77d974f585734602d5c7dbb0fa8756bc636eca3469b0e8fce8b\n";

// Adds a wrap line for the protector of this label, a letter.
pub(crate) fn push_wrap(text: &mut Vec<u8>, label: u8) -> Result<(), AllocError> {
    text.extend_from_slice(b"wrap ")?;
    text.push(label)?;
    text.extend_from_slice(WRAPPED)?;
    Ok(())
}

// The record of a policy with a wrap for the protector of each label.
fn record_for(alloc: Global, labels: &[u8]) -> Result<Vec<u8>, AllocError> {
    let mut text = record(alloc, &DOCS[..3])?;
    for label in labels {
        push_wrap(&mut text, *label)?;
    }
    Ok(text)
}

pub(crate) fn policy_for<A: Abort>(rt: &A, alloc: Global, labels: &[u8]) -> PolicyFile {
    let text = record_for(alloc, labels).expect(rt, "memory");
    decode_policy_file(alloc, &text).expect(rt, "a policy")
}

// Whether the text is no record of a policy, with this line at fault.
pub(crate) fn is_at_fault(alloc: Global, text: &[u8], at: u32) -> bool {
    matches!(decode_policy_file(alloc, text), Err(MetaFault::Bad { line }) if line == at)
}

// That the policy is written as this record; else the test fails.
pub(crate) fn expect_text<A: Abort>(rt: &A, alloc: Global, policy: &PolicyFile, record: &[u8]) {
    let text = encode_policy_file(alloc, policy).expect(rt, "memory");
    expect_same(rt, text.as_slice(), record, "a record");
}

// That it is written as the record with wraps for these labels.
fn expect_written_for<A: Abort>(rt: &A, alloc: Global, policy: &PolicyFile, labels: &[u8]) {
    let record = record_for(alloc, labels).expect(rt, "memory");
    expect_text(rt, alloc, policy, &record);
}

// The key of the protector whose record has these lines.
fn key_in<A: Abort>(rt: &A, alloc: Global, lines: &[&[u8]]) -> [u8; 32] {
    let text = record(alloc, lines).expect(rt, "memory");
    let protector = decode_protector(&text).expect(rt, "a protector");
    protector_key(rt, alloc, &protector)
}

// Whether the wrap opens, by the key of one of the two protectors, to the key of this identifier.
fn opens_to(wrap: &Wrap, login: &[u8; 32], backup: &[u8; 32], id: KeyId) -> bool {
    let is_login = wrap.protector.bytes() == b"login".as_slice();
    let protector = if is_login { login } else { backup };
    let mut key = [0; 64];
    let opened = unwrap(protector, &wrap.iv, &wrap.key, &wrap.tag, &mut key);
    match RawKey::read(&key) {
        Ok(raw) => opened.is_ok() && key_id(&raw) == id,
        Err(_) => false,
    }
}

#[test]
fn wraps_of_a_session_open_to_the_policy_key(rt: HostRuntime) {
    let alloc = rt.alloc();
    let (login, backup) = (key_in(&rt, alloc, &LOGIN), key_in(&rt, alloc, &BACKUP));
    for (lines, len) in [(4, 297), (5, 536)] {
        let text = record(alloc, &DOCS[..lines]).expect(&rt, "memory");
        assert!(rt; text.len() == len);
        let policy = decode_policy_file(alloc, &text).expect(&rt, "a policy");
        assert!(rt; policy.wraps.len() == lines - 3 && all_open(&policy, &login, &backup));
        expect_text(&rt, alloc, &policy, &text);
    }
}

// Whether each wrap of the policy opens to its key.
fn all_open(policy: &PolicyFile, login: &[u8; 32], backup: &[u8; 32]) -> bool {
    for wrap in policy.wraps.iter() {
        if !opens_to(wrap, login, backup, policy.id) {
            return false;
        }
    }
    true
}

#[test]
fn a_listed_protector_is_listed_also_at_sixteen(rt: HostRuntime) {
    let alloc = rt.alloc();
    let mut policy = policy_for(&rt, alloc, b"abcdefghijklmnop");
    let others = policy_for(&rt, alloc, b"pq");
    let wanted = [Err(WrapFault::Listed), Err(WrapFault::Full)];
    assert!(rt; others.wraps.len() == 2);
    for (place, answer) in wanted.iter().enumerate() {
        assert!(rt; add_protector(&mut policy, others.wraps.as_slice()[place]) == *answer);
    }
    expect_written_for(&rt, alloc, &policy, b"abcdefghijklmnop");
}

#[test]
fn wraps_keep_their_order(rt: HostRuntime) {
    let alloc = rt.alloc();
    let mut policy = policy_for(&rt, alloc, b"abc");
    let b = policy_for(&rt, alloc, b"b");
    for wrap in b.wraps.iter() {
        drop_and_add(&rt, alloc, &mut policy, wrap);
    }
    drop_all(&rt, alloc, &mut policy);
}

// The wrap of b is dropped, and added again after the others.
fn drop_and_add<A: Abort>(rt: &A, alloc: Global, policy: &mut PolicyFile, wrap: &Wrap) {
    assert!(rt; drop_protector(policy, &wrap.protector) == Ok(()));
    assert!(rt; drop_protector(policy, &wrap.protector) == Err(WrapFault::NotListed));
    expect_written_for(rt, alloc, policy, b"ac");
    assert!(rt; add_protector(policy, *wrap) == Ok(()));
    expect_written_for(rt, alloc, policy, b"acb");
}

// All three are dropped but the last one.
fn drop_all<A: Abort>(rt: &A, alloc: Global, policy: &mut PolicyFile) {
    let all = policy_for(rt, alloc, b"cba");
    for wrap in all.wraps.iter() {
        let is_last = policy.wraps.len() == 1;
        let wanted = if is_last {
            Err(WrapFault::LastOne)
        } else {
            Ok(())
        };
        assert!(rt; drop_protector(policy, &wrap.protector) == wanted);
        assert!(rt; policy.wraps.find(&wrap.protector).is_some() == is_last);
    }
}

#[test]
fn the_last_wrap_stays(rt: HostRuntime) {
    let mut policy = policy_for(&rt, rt.alloc(), b"acb");
    drop_all(&rt, rt.alloc(), &mut policy);
}

#[test]
fn wraps_that_are_missing_or_too_many_are_at_fault(rt: HostRuntime) {
    let cases: [(&[u8], u32); 5] = [
        (b"", 4),
        (b"aa", 5),
        (b"aba", 6),
        (b"abcdefghijklmnopq", 20),
        (b"abcdefghijklmnopa", 20),
    ];
    for (labels, line) in cases {
        let text = record_for(rt.alloc(), labels).expect(&rt, "memory");
        assert!(rt; is_at_fault(rt.alloc(), &text, line), "line {line}");
    }
}

/// Lines that are at fault in the place of this number in the record DOCS.
static DOCS_FAULTS: [(u32, &[u8]); 16] = [
    (1, b""),
    (1, b"fsc-policy 3"),
    (1, b"fsc-protector 1"),
    (2, b"name "),
    (2, b"name Docs"),
    (2, b"id 8a25df4cd4f408b30828b727c5177ce5"),
    (3, b"id 8A25df4cd4f408b30828b727c5177ce5"),
    (3, b"id 8a25df4cd4f408b30828b727c5177ce"),
    (3, b"id 8a25df4cd4f408b30828b727c5177ce5 "),
    (4, b""),
    (4, b"options 32 0"),
    (4, b"wrap login 3453e2154c9546fb81b5f4e3fa894441"),
    (
        4,
        b"wrap  3453e2154c9546fb81b5f4e3fa894441 \
          6992de0806f04dcc84e29326769d995e1c57a0c2589b41636113d6b546c3c7e8\
          81ea3ae9399f11f36b16015dec87a26f0392c991986d56208fa7a96dd4ec0f68 \
          4fe2e562a639cd9b163183f29b2e333eac10776ac9f9dbe64bde76724252ce6a",
    ),
    (
        4,
        b"wrap login 3453E2154c9546fb81b5f4e3fa894441 \
          6992de0806f04dcc84e29326769d995e1c57a0c2589b41636113d6b546c3c7e8\
          81ea3ae9399f11f36b16015dec87a26f0392c991986d56208fa7a96dd4ec0f68 \
          4fe2e562a639cd9b163183f29b2e333eac10776ac9f9dbe64bde76724252ce6a",
    ),
    (
        4,
        b"wrap login 3453e2154c9546fb81b5f4e3fa894441 \
          4fe2e562a639cd9b163183f29b2e333eac10776ac9f9dbe64bde76724252ce6a \
          6992de0806f04dcc84e29326769d995e1c57a0c2589b41636113d6b546c3c7e8\
          81ea3ae9399f11f36b16015dec87a26f0392c991986d56208fa7a96dd4ec0f68",
    ),
    (5, b"name docs"),
];

#[test]
fn a_line_that_is_not_as_its_place_asks_is_at_fault(rt: HostRuntime) {
    for &(number, said) in &DOCS_FAULTS {
        let text = with_line(rt.alloc(), &DOCS, number, said).expect(&rt, "memory");
        assert!(rt; is_at_fault(rt.alloc(), &text, number), "line {number}");
    }
}

#[test]
fn a_piece_without_a_line_feed_is_at_fault_at_its_own_number(rt: HostRuntime) {
    let alloc = rt.alloc();
    let mut text = record(alloc, &DOCS).expect(&rt, "memory");
    // How many bytes are left of the text, and the line at fault.
    for (len, line) in [
        (535, 5),
        (296, 4),
        (59, 4),
        (58, 3),
        (23, 3),
        (22, 2),
        (13, 2),
        (12, 1),
        (0, 1),
    ] {
        text.truncate(len);
        assert!(rt; is_at_fault(alloc, &text, line), "{len} bytes");
    }
}
