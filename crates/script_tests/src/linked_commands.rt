//! A command of a caller on two mounts, one of whose calls is out of memory, for tests.

ghost use Rattle.std.specs.Prelude.{◌<◌, length};

use crate::runs::{Instead, log_of};
use crate::texts::joined;
use mount_model::{Refusal, Reply};
use std::alloc::{AllocError, Global};
use std::process::Abort;

// Three protectors on mount 0 with their links on mount 1, which also has one that is no link. A policy
// that two of the linked ones open, a policy of the first version, and an empty directory.
const BEFORE: &str = "\
caller 0
protector login raw:\
1111111111111111111111111111111111111111111111111111111111111111
protector spare raw:\
2222222222222222222222222222222222222222222222222222222222222222
protector third raw:\
3333333333333333333333333333333333333333333333333333333333333333
caller 1000
protector-link login
protector-link spare
protector-link third
protector here raw:\
4444444444444444444444444444444444444444444444444444444444444444
policy-new docs login raw:\
1111111111111111111111111111111111111111111111111111111111111111
policy-add docs login raw:\
1111111111111111111111111111111111111111111111111111111111111111 \
spare raw:\
2222222222222222222222222222222222222222222222222222222222222222
meta-put policy/old 0 \
6673632d706f6c69637920310a6e616d65206f6c640a6964203030303030303030303030303030303030303030303030\
3030303030303030300a77726170206c6f67696e20303030303030303030303030303030303030303030303030303030\
303030303020303030303030303030303030303030303030303030303030303030303030303030303030303030303030\
303030303030303030303030303030303030303030303030303030303030303030303030303030303030303030303030\
303030303030303030303030303030303030303030303030303030303030303030303030303020303030303030303030\
303030303030303030303030303030303030303030303030303030303030303030303030303030303030303030303030\
303030303030300a
mkdir /e
";

// How many calls the commands before a tested one make on the far mount and on the own one, and how many
// notes they have.
const FAR_BEFORE: u64 = 6;

const OWN_BEFORE: u64 = 16;

const NOTES_BEFORE: u64 = 9;

// No run has that many calls.
const NEVER: u64 = u64::MAX;

// Where a call of the command is made.
#[derive(Clone, Copy, PartialEq, Eq)]
pub(crate) enum On {
    Own,
    Far,
}

// What a command asks: on which mount, and the text of the call in the log.
pub(crate) type Asked = (On, &'static str);

// The call of this number on a mount, from 0, is out of memory.
pub(crate) fn wanting(at: u64) -> Instead {
    Instead {
        at,
        reply: Some(Reply::Refused(Refusal::NoMemory)),
    }
}

// Returns the logs of a run of the command after those above, on two mounts whose calls of these numbers
// are out of memory.
fn logs<A: Abort>(rt: &A, alloc: Global, command: &str, far: u64, own: u64) -> Vec<u8> {
    let script = joined(alloc, BEFORE, command).expect(rt, "memory");
    let (far, own) = (wanting(far), wanting(own));
    log_of(rt, alloc, "replay-linked", script.as_str(), far, own).1
}

// Returns how many of these are made on this mount.
fn count(calls: &[Asked], on: On) -> u64 {
    let mut count = 0u64;
    for call in calls {
        if call.0 == on {
            count = count.wrapping_add(1);
        }
    }
    count
}

// Appends `count` lines of the text, from this one on.
fn put_lines(got: &mut Vec<u8>, text: &[u8], first: u64, count: u64) -> Result<(), AllocError> {
    let mut line = 0u64;
    for byte in text {
        if first <= line && line < first.wrapping_add(count) {
            got.push(*byte)?;
        }
        if *byte == b'\n' {
            line = line.wrapping_add(1);
        }
    }
    Ok(())
}

// Appends the line of a call that is out of memory.
fn put_wanting(
    got: &mut Vec<u8>,
    alloc: Global,
    place: u64,
    words: &str,
) -> Result<(), AllocError> {
    let line = format!(in alloc; "{place} 1 1000 {words} = refused no-memory\n")?;
    got.extend_from_slice(line.as_bytes())?;
    Ok(())
}

// Appends the logs of a run whose last call is this one, which is out of memory, after the command's calls
// `made`. What was asked before is as in the logs of the whole command, which makes all of these calls.
fn put_logs_until(
    got: &mut Vec<u8>,
    alloc: Global,
    whole: &[u8],
    calls: &[Asked],
    made: &[Asked],
    call: Asked,
) -> Result<(), AllocError> {
    let far = FAR_BEFORE.wrapping_add(count(made, On::Far));
    let own = OWN_BEFORE.wrapping_add(count(made, On::Own));
    let mount_1 = FAR_BEFORE
        .wrapping_add(count(calls, On::Far))
        .wrapping_add(1);
    let notes = mount_1
        .wrapping_add(OWN_BEFORE)
        .wrapping_add(count(calls, On::Own))
        .wrapping_add(1);
    put_lines(got, whole, 0, far.wrapping_add(1))?;
    if call.0 == On::Far {
        put_wanting(got, alloc, far, call.1)?;
    }
    put_lines(got, whole, mount_1, own.wrapping_add(1))?;
    if call.0 == On::Own {
        put_wanting(got, alloc, own, call.1)?;
    }
    put_lines(got, whole, notes, NOTES_BEFORE)?;
    got.extend_from_slice(b"note 1 14 no-memory\n")?;
    Ok(())
}

// Returns the logs of the command if its call after these is out of memory.
fn logs_at<A: Abort>(rt: &A, alloc: Global, command: &str, made: &[Asked], on: On) -> Vec<u8> {
    let far = FAR_BEFORE.wrapping_add(count(made, On::Far));
    let own = OWN_BEFORE.wrapping_add(count(made, On::Own));
    match on {
        On::Far => logs(rt, alloc, command, far, NEVER),
        On::Own => logs(rt, alloc, command, NEVER, own),
    }
}

// Returns whether the command ends if its call of this number is out of memory, after the calls before it
// and no other.
fn ends_at<A: Abort>(
    rt: &A,
    alloc: Global,
    command: &str,
    whole: &[u8],
    calls: &[Asked],
    at: usize,
) -> bool
    requires { at < length calls.now }
{
    let (made, call) = (&calls[..at], calls[at]);
    let mut wanted = Vec::new(alloc);
    put_logs_until(&mut wanted, alloc, whole, calls, made, call).expect(rt, "memory");
    let got = logs_at(rt, alloc, command, made, call.0);
    got.as_slice() == wanted.as_slice()
}

// Returns the first of a command's calls for which `ends_at` doesn't hold. The command is on line 14 of its
// script.
pub(crate) fn first_wrong<A: Abort>(
    rt: &A,
    alloc: Global,
    command: &str,
    calls: &[Asked],
) -> Option<usize> {
    let whole = logs(rt, alloc, command, NEVER, NEVER);
    for at in 0..calls.len() {
        if !ends_at(rt, alloc, command, &whole, calls, at) {
            return Some(at);
        }
    }
    None
}
