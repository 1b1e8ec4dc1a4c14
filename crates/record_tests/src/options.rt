//! Options in records of policies.
ghost use Rattle.std.specs.Prelude.{◌≤◌};

use crate::protectors::{push_lines, record, with_line};
use crate::wraps::{DOCS, expect_text, is_at_fault, policy_for, push_wrap};
use protector_meta::{
    Options, Pad, PolicyFile, Unit, Wrap, add_protector, decode_policy_file, drop_protector,
};
use std::alloc::{AllocError, Global};
use std::process::Abort;

/// The lines before the wraps of the same policy with options, in a record of version 2.
static WITH_OPTIONS: [&[u8]; 4] = [
    b"fsc-policy 2",
    b"name docs",
    b"id 8a25df4cd4f408b30828b727c5177ce5",
    b"options 32 0",
];

// A record of version 2, with the wraps of DOCS up to this line of it.
fn record_with_options(alloc: Global, lines: usize) -> Result<Vec<u8>, AllocError>
    requires after_head { 3 ≤ lines }
    requires within { lines ≤ 5 }
{
    let mut text = record(alloc, &WITH_OPTIONS)?;
    push_lines(&mut text, &DOCS[3..lines])?;
    Ok(text)
}

// The lines before the wraps, with another in the place of this number, and a wrap after them.
fn wrapped_behind(alloc: Global, number: u32, said: &[u8]) -> Result<Vec<u8>, AllocError> {
    let mut text = with_line(alloc, &WITH_OPTIONS, number, said)?;
    push_wrap(&mut text, b'a')?;
    Ok(text)
}

// That the policy is written as the record with these lines; else the test fails.
fn expect_lines<A: Abort>(rt: &A, alloc: Global, policy: &PolicyFile, lines: &[&[u8]]) {
    let record = record(alloc, lines).expect(rt, "memory");
    expect_text(rt, alloc, policy, &record);
}

#[test]
fn options_stand_in_records_of_version_2(rt: HostRuntime) {
    let alloc = rt.alloc();
    let options = Options {
        pad: Pad::P32,
        unit: Unit::Block,
    };
    for (lines, len) in [(4, 310), (5, 549)] {
        let text = record_with_options(alloc, lines).expect(&rt, "memory");
        assert!(rt; text.len() == len);
        let mut policy = decode_policy_file(alloc, &text).expect(&rt, "memory");
        assert!(rt; policy.options == Some(options));
        expect_text(&rt, alloc, &policy, &text);
        policy.options = None;
        expect_lines(&rt, alloc, &policy, &DOCS[..lines]);
    }
}

#[test]
fn other_options_are_read(rt: HostRuntime) {
    let alloc = rt.alloc();
    let text = wrapped_behind(alloc, 4, b"options 4 12").expect(&rt, "memory");
    let policy = decode_policy_file(alloc, &text).expect(&rt, "memory");
    let options = Options {
        pad: Pad::P4,
        unit: Unit::U4096,
    };
    assert!(rt; policy.options == Some(options));
}

#[test]
fn options_outlast_a_change_of_protectors(rt: HostRuntime) {
    let alloc = rt.alloc();
    let text = record_with_options(alloc, 4).expect(&rt, "memory");
    let mut policy = decode_policy_file(alloc, &text).expect(&rt, "memory");
    let others = policy_for(&rt, alloc, b"a");
    for wrap in others.wraps.iter() {
        add_and_drop(&rt, &mut policy, wrap);
    }
    expect_text(&rt, alloc, &policy, &text);
}

// The wrap is added after the others, and dropped again.
fn add_and_drop<A: Abort>(rt: &A, policy: &mut PolicyFile, wrap: &Wrap) {
    assert!(rt; add_protector(policy, *wrap) == Ok(()));
    assert!(rt; drop_protector(policy, &wrap.protector) == Ok(()));
}

/// Lines that are at fault in the place of this number, in a record of version 2.
static FAULTS: [(u32, &[u8]); 11] = [
    (1, b"fsc-policy 02"),
    (3, b"options 32 0"),
    (4, b"options 32 8"),
    (4, b"options 32 13"),
    (4, b"options 31 0"),
    (4, b"options 032 0"),
    (4, b"options 32 00"),
    (4, b"options 32"),
    (4, b"options 32 0 "),
    (4, b"options 32  0"),
    (4, b"name docs"),
];

#[test]
fn lines_of_version_2_are_at_fault_at_their_numbers(rt: HostRuntime) {
    let alloc = rt.alloc();
    for &(number, said) in &FAULTS {
        let text = wrapped_behind(alloc, number, said).expect(&rt, "memory");
        assert!(rt; is_at_fault(alloc, &text, number), "line {number}");
    }
    assert!(rt; asks_for_a_wrap(alloc) == Ok(true));
    assert!(rt; asks_for_options(alloc) == Ok(true));
}

// Whether no wrap at all is at fault.
fn asks_for_a_wrap(alloc: Global) -> Result<bool, AllocError> {
    let text = record(alloc, &WITH_OPTIONS)?;
    Ok(is_at_fault(alloc, &text, 5))
}

// Whether a wrap in the place of the options is at fault.
fn asks_for_options(alloc: Global) -> Result<bool, AllocError> {
    let text = with_line(alloc, &DOCS, 1, b"fsc-policy 2")?;
    Ok(is_at_fault(alloc, &text, 4))
}
