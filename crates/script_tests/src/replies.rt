//! Each command of a session with another reply in place of the one to each of its calls.

use crate::kinds::{KINDS, Kind, reply};
use crate::runs::{Instead, as_it_is, log_of};
use crate::texts::joined;
use mount_model::{Refusal, Reply};
use std::alloc::Global;
use std::process::Abort;

// Three protectors, a policy that two of them open, a policy of the first version, and an empty directory.
// Each line has one reply, except two for the policy that is made and four for the one that gets a wrap.
const BEFORE: &str = "\
caller 1000
protector login raw:\
1111111111111111111111111111111111111111111111111111111111111111
protector spare raw:\
2222222222222222222222222222222222222222222222222222222222222222
protector third raw:\
3333333333333333333333333333333333333333333333333333333333333333
policy-new docs login raw:\
1111111111111111111111111111111111111111111111111111111111111111
policy-add docs login raw:\
1111111111111111111111111111111111111111111111111111111111111111 \
spare raw:\
2222222222222222222222222222222222222222222222222222222222222222
meta-put policy/old 0 \
6673632d706f6c69637920310a6e616d65206f6c640a6964203030303030303030303030303030303030303030303030\
3030303030303030300a77726170206c6f67696e20303030303030303030303030303030303030303030303030303030\
303030303020303030303030303030303030303030303030303030303030303030303030303030303030303030303030\
303030303030303030303030303030303030303030303030303030303030303030303030303030303030303030303030\
303030303030303030303030303030303030303030303030303030303030303030303030303020303030303030303030\
303030303030303030303030303030303030303030303030303030303030303030303030303030303030303030303030\
303030303030300a
mkdir /e
";

const BEFORE_CALLS: u64 = 11;

// The number of lines of the log that are no entries: five notes, and that of the last command.
const NOTES: u64 = 6;

// Each command, and the kinds of the expected replies to its calls.
static COMMANDS: [(&str, &[Kind]); 11] = [
    (
        "protector other raw:3333333333333333333333333333333333333333333333333333333333333333\n",
        &[Kind::Stored],
    ),
    ("protector-link far\n", &[Kind::Stored]),
    (
        "protector-change login raw:1111111111111111111111111111111111111111111111111111111111111111 \
        raw:3333333333333333333333333333333333333333333333333333333333333333\n",
        &[Kind::Held, Kind::Stored],
    ),
    (
        "policy-new other login raw:1111111111111111111111111111111111111111111111111111111111111111\n",
        &[Kind::Held, Kind::Stored],
    ),
    (
        "policy-add docs login raw:1111111111111111111111111111111111111111111111111111111111111111 \
        third raw:3333333333333333333333333333333333333333333333333333333333333333\n",
        &[Kind::Held, Kind::Held, Kind::Held, Kind::Stored],
    ),
    ("policy-drop docs spare\n", &[Kind::Held, Kind::Stored]),
    (
        "unlock docs login raw:1111111111111111111111111111111111111111111111111111111111111111\n",
        &[Kind::Held, Kind::Held, Kind::Added],
    ),
    ("lock docs\n", &[Kind::Held, Kind::Removed]),
    ("status docs\n", &[Kind::Held, Kind::Status]),
    ("encrypt /e docs\n", &[Kind::Held, Kind::Done]),
    ("migrate old\n", &[Kind::Held, Kind::Stored]),
];

// Returns the log of a run of this command after those above, in which the call of this number has this
// reply.
fn log_with<A: Abort>(rt: &A, alloc: Global, command: &str, at: u64, reply: Reply) -> Vec<u8> {
    let script = joined(alloc, BEFORE, command).expect(rt, "memory");
    let other = Instead {
        at,
        reply: Some(reply),
    };
    log_of(rt, alloc, "replay", script.as_str(), other, as_it_is()).1
}

// Returns how many lines a text has.
fn lines(text: &[u8]) -> u64 {
    let mut count = 0u64;
    for byte in text {
        if *byte == b'\n' {
            count = count.wrapping_add(1);
        }
    }
    count
}

// Returns how a log ends whose last command, on line 9, was ended by an unexpected kind of reply.
fn last_note(kind: Kind) -> &'static str {
    match kind {
        Kind::Wanting => "\nnote 0 9 no-memory\n",
        _ => "\nnote 0 9 odd-reply\n",
    }
}

// Returns whether the command, on line 9, ends with this kind's word at the call of this number, and makes
// no call after it.
fn ends_there<A: Abort>(rt: &A, alloc: Global, command: &str, at: u64, kind: Kind) -> bool {
    let log = log_with(rt, alloc, command, at, reply(alloc, kind));
    let is_last = lines(&log) == at.wrapping_add(1).wrapping_add(NOTES);
    is_last && log.ends_with(last_note(kind).as_bytes())
}

// Returns the first of a command's calls, which expect these replies, and the other reply to it that
// doesn't end the command there with the right word.
fn first_wrong<A: Abort>(
    rt: &A,
    alloc: Global,
    command: &str,
    wanted: &[Kind],
) -> Option<(usize, Kind)> {
    for place in 0..wanted.len() {
        for kind in &KINDS {
            let at = BEFORE_CALLS.wrapping_add(place as u64);
            if *kind != wanted[place] && !ends_there(rt, alloc, command, at, *kind) {
                return Some((place, *kind));
            }
        }
    }
    None
}

#[test]
fn each_command_ends_at_each_reply(rt: HostRuntime) {
    for (command, wanted) in &COMMANDS {
        assert!(rt;
            first_wrong(&rt, rt.alloc(), command, wanted).is_none(),
            "{command}"
        );
    }
}

// In no run in turns does a migration find another version at its store than the one that it loaded.
#[test]
fn a_migration_ends_by_its_store(rt: HostRuntime) {
    let changed = Reply::Refused(Refusal::Changed { version: 2 });
    let at = BEFORE_CALLS.wrapping_add(1);
    let log = log_with(&rt, rt.alloc(), "migrate old\n", at, changed);
    assert!(rt; log.ends_with(b"\nnote 0 9 conflict\n"));
}
