//! Runs of the tool in threads, over a machine that answers the calls of a mount without one.

use crate::counting::Counting;
use crate::meeting::MeetingGate;
use crate::runs::{BY_4096, Outside, SEED, got, streams_of, words_of};
use crate::texts::same_bytes;
use fsc_outside::{FixedSeed, Gate, OpenGate};
use fsc_tool::{Mounts, Status, tool};
use std::alloc::Global;
use std::process::Abort;
use std::sync::Wait;
use std::thread::Threads;

// Replays the script in threads over a machine whose call of this number, from 0, is out of memory. Returns
// how the replay ends, and what it writes. No call is made on mount 1.
fn replayed<R: Abort + Threads + Wait + Sync, G: Gate + Sync>(
    rt: &R,
    alloc: Global,
    script: &str,
    gate: &G,
    wanting: u64,
) -> (Status, Vec<u8>) {
    let mut words = words_of(alloc, &["replay", "--seed", SEED]).expect(rt, "memory");
    let outside = Outside {
        script,
        reads: BY_4096,
        writes: BY_4096,
        seeds: FixedSeed::failing(),
    };
    let mut streams = streams_of(alloc, outside).expect(rt, "memory");
    let mounts = Mounts {
        even: Counting { calls: 0, wanting },
        odd: Counting {
            calls: 0,
            wanting: 0,
        },
    };
    let status = tool(rt, alloc, &mut words, &mut streams, gate, mounts);
    (status, got(rt, alloc, &streams))
}

// On one thread the limit of looks would be reached: the first caller's second command would wait for a
// second caller that has not begun.
#[test]
fn two_callers_meet_in_the_middle_of_their_sections(rt: HostRuntime) {
    let script = "caller 1\ndrop-caches\ndrop-caches\ncaller 2\ndrop-caches\ndrop-caches\n";
    let gate = MeetingGate::new();
    let status = replayed(&rt, rt.alloc(), script, &gate, 1000).0;
    assert!(rt; status == Status::Done, "{status}");
    assert!(rt; gate.missed() == 0);
}

// A reply that is out of memory is a line of the log like any other, and the caller goes on.
#[test]
fn a_reply_that_wants_memory_ends_no_section(rt: HostRuntime) {
    let script = "caller 1\ndrop-caches\ndrop-caches\ndrop-caches\n";
    let (status, got) = replayed(&rt, rt.alloc(), script, &OpenGate, 1);
    assert!(rt; status == Status::Done, "{status}");
    let log =
        b"0 0 1 drop-caches = ok\n1 0 1 drop-caches = refused no-memory\n2 0 1 drop-caches = ok\n";
    same_bytes(&rt, got.as_slice(), log, "the log");
}
