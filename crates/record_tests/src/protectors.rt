//! Records of protectors.

use crate::spelled::expect_same;
use argon_kdf::{Texts, argon2id};
use key_wrap::unwrap;
use protector_meta::{
    Descriptor, MetaFault, Protector, ProtectorKind, decode_protector, encode_protector,
};
use std::alloc::{AllocError, Global};
use std::process::Abort;

/// A protector of the passphrase `correct horse`, made outside.
pub(crate) static LOGIN: [&[u8]; 7] = [
    b"fsc-protector 1",
    b"name login",
    b"kind pass 1 64 1 57ef597275f46ccf69b328c1718006d0",
    b"descriptor 42580fb292d14fe7",
    b"iv 85e5b95065dc32429794f1951385a775",
    b"key e8f88e94594aae5d4c1678dd38e26ec154855304aac2c8f7c8b487129bbcd575",
    b"tag 476ce1185d34c30da83bb6e2579ff7297ec97da508d2dea6ab63972e615329f1",
];

/// A protector of the secret of 32 bytes 0x11, made outside.
pub(crate) static BACKUP: [&[u8]; 7] = [
    b"fsc-protector 1",
    b"name backup",
    b"kind raw",
    b"descriptor 357130f6173b452d",
    b"iv 01fbd7215e026502dfe23ba171216232",
    b"key 0cdca66d456a97fb47b532ed7f012311cc8679220ea6ef3413236032dadf1fa9",
    b"tag 82b771a983b19289aff4ef3019617f4efa41fbdb2111e08e2648b5836c2a8722",
];

fn push_line(text: &mut Vec<u8>, line: &[u8]) -> Result<(), AllocError> {
    text.extend_from_slice(line)?;
    text.push(b'\n')?;
    Ok(())
}

// Appends the lines with a line feed after each.
pub(crate) fn push_lines(text: &mut Vec<u8>, lines: &[&[u8]]) -> Result<(), AllocError> {
    for line in lines {
        push_line(text, line)?;
    }
    Ok(())
}

// The lines with a line feed after each.
pub(crate) fn record(alloc: Global, lines: &[&[u8]]) -> Result<Vec<u8>, AllocError> {
    let mut text = Vec::new(alloc);
    push_lines(&mut text, lines)?;
    Ok(text)
}

// The same, with another line in the place of this number.
pub(crate) fn with_line(
    alloc: Global,
    lines: &[&[u8]],
    number: u32,
    said: &[u8],
) -> Result<Vec<u8>, AllocError> {
    let mut text = Vec::new(alloc);
    for (i, line) in lines.iter().enumerate() {
        let line = if i + 1 == number as usize { said } else { line };
        push_line(&mut text, line)?;
    }
    Ok(text)
}

// The key of a protector whose secret is known.
pub(crate) fn protector_key<A: Abort>(rt: &A, alloc: Global, protector: &Protector) -> [u8; 32] {
    let mut wrapping = [0x11; 32];
    if let ProtectorKind::Pass(stretching) = &protector.kind {
        let costs = stretching.costs();
        let salt = stretching.salt();
        let texts = Texts::without_secret(b"correct horse", salt);
        argon2id(alloc, &costs, texts, &mut wrapping).expect(rt, "memory");
    }
    let mut key = [0; 32];
    let opened = unwrap(
        &wrapping,
        &protector.iv,
        &protector.key,
        &protector.tag,
        &mut key,
    );
    assert!(rt; opened.is_ok());
    key
}

// Whether the text is no record of a protector, with this line at fault.
fn is_at_fault(text: &[u8], at: u32) -> bool {
    matches!(decode_protector(text), Err(MetaFault::Bad { line }) if line == at)
}

// That the protector is written as this record; else the test fails.
fn expect_text<A: Abort>(rt: &A, alloc: Global, protector: &Protector, record: &[u8]) {
    let text = encode_protector(alloc, protector).expect(rt, "memory");
    expect_same(rt, text.as_slice(), record, "a record");
}

#[test]
fn records_of_a_session_open_to_the_keys_of_their_descriptors(rt: HostRuntime) {
    for (lines, len) in [(&LOGIN, 279), (&BACKUP, 239)] {
        let text = record(rt.alloc(), lines).expect(&rt, "memory");
        assert!(rt; text.len() == len);
        let protector = decode_protector(&text).expect(&rt, "a protector");
        let key = protector_key(&rt, rt.alloc(), &protector);
        assert!(rt; Descriptor::of_key(&key) == protector.descriptor);
        expect_text(&rt, rt.alloc(), &protector, &text);
    }
}

// The record BACKUP without the line of this number, counted from 0.
fn record_without(alloc: Global, missing: usize) -> Result<Vec<u8>, AllocError> {
    let mut text = Vec::new(alloc);
    for (i, line) in BACKUP.iter().enumerate() {
        if i != missing {
            push_line(&mut text, line)?;
        }
    }
    Ok(text)
}

#[test]
fn a_missing_line_is_at_fault_at_its_number(rt: HostRuntime) {
    for missing in 0..7 {
        let text = record_without(rt.alloc(), missing).expect(&rt, "memory");
        assert!(rt; is_at_fault(&text, missing as u32 + 1), "{missing}");
    }
}

/// Lines that are at fault in the place of this number in the record BACKUP.
static BACKUP_FAULTS: [(u32, &[u8]); 20] = [
    (1, b""),
    (1, b"fsc-protector 2"),
    (1, b"fsc-policy 1"),
    (2, b"name "),
    (2, b"name Backup"),
    (2, b"name  backup"),
    (2, b"name abcdefghijabcdefghijabcdefghijabc"),
    (3, b"kind raw "),
    (3, b"kind pass 1 64 1 57ef597275f46ccf69b328c1718006d"),
    (3, b"kind pass 01 64 1 57ef597275f46ccf69b328c1718006d0"),
    (3, b"kind pass 17 64 1 57ef597275f46ccf69b328c1718006d0"),
    (3, b"kind pass 1 7 1 57ef597275f46ccf69b328c1718006d0"),
    (3, b"kind pass 1 64 9 57ef597275f46ccf69b328c1718006d0"),
    (3, b"kind pass 1 64 57ef597275f46ccf69b328c1718006d0"),
    (4, b"descriptor 357130F6173b452d"),
    (4, b"descriptor 357130f6173b452"),
    (5, b"iv 01FBd7215e026502dfe23ba171216232"),
    (5, b"iv\t01fbd7215e026502dfe23ba171216232"),
    (6, b"iv 01fbd7215e026502dfe23ba171216232"),
    (
        7,
        b"tag 82b771a983b19289aff4ef3019617f4efa41fbdb2111e08e2648b5836c2a8722\r",
    ),
];

#[test]
fn a_line_that_is_not_as_its_place_asks_is_at_fault(rt: HostRuntime) {
    for &(number, said) in &BACKUP_FAULTS {
        let text = with_line(rt.alloc(), &BACKUP, number, said).expect(&rt, "memory");
        assert!(rt; is_at_fault(&text, number), "line {number}");
    }
}

#[test]
fn what_follows_the_last_line_feed_is_at_fault_at_its_own_number(rt: HostRuntime) {
    assert!(rt; is_at_fault(b"", 1));
    assert!(rt; is_at_fault(b"fsc-protector 1", 1));
    let mut text = record(rt.alloc(), &BACKUP).expect(&rt, "memory");
    for said in [b"tag".as_slice(), b"\n", b"\n"] {
        text.extend_from_slice(said).expect(&rt, "memory");
        assert!(rt; is_at_fault(&text, 8));
    }
    text.truncate(238);
    assert!(rt; is_at_fault(&text, 7));
}
