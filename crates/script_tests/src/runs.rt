//! Runs of the tool in turns, on mounts in memory. A function with a mount among its locals, or a source
//! and a sink, is expensive to prove: so only this module makes mounts, and what is outside of a run in
//! turns.

ghost use Rattle.std.specs.Prelude.{◌≤◌};

use crate::replaced::Replaced;
use fsc_outside::{CallList, FixedSeed, MemSink, MemSource};
use fsc_tool::{Mounts, Status, Streams, tool_serial};
use mount_model::Reply;
use mount_shared::Mount;
use std::alloc::{AllocError, Global};
use std::process::Abort;

/// The seed of the tests.
pub(crate) const SEED: &str = "0000000000000000000000000000000000000000000000000000000000000000";

/// Returns the arguments of a command line.
pub(crate) fn words_of(alloc: Global, texts: &[&str]) -> Result<Vec<String>, AllocError> {
    let mut words = Vec::new(alloc);
    for text in texts {
        words.push(String::from_str(alloc, text)?)?;
    }
    Ok(words)
}

/// How many bytes a read gives or a write takes at most, and the call that fails: the one of this number,
/// from 0, or none.
#[derive(Clone, Copy)]
pub(crate) struct Calls {
    pub(crate) piece: usize,
    pub(crate) fails: Option<u32>,
}

/// 4,096 bytes a read or a write, of which none fails.
pub(crate) const BY_4096: Calls = Calls {
    piece: 4_096,
    fails: None,
};

/// Returns a list of the call of this number alone, or of none.
pub(crate) fn call_list(alloc: Global, number: Option<u32>) -> Result<CallList, AllocError> {
    let mut list = CallList::new(alloc);
    if let Some(number) = number {
        list.push(number)?;
    }
    Ok(list)
}

/// What is outside of a run of this script: how its bytes are read, how those of the log are written, and
/// the source of seeds.
#[derive(Drop)]
pub(crate) struct Outside<'a> {
    pub(crate) script: &'a str,
    pub(crate) reads: Calls,
    pub(crate) writes: Calls,
    pub(crate) seeds: FixedSeed,
}

/// What a run of the tests reaches.
pub(crate) type MemStreams = Streams<MemSource, MemSink, FixedSeed>;

/// Returns a source of the script, and a sink with space for the logs of the tests, beside the source of
/// seeds.
pub(crate) fn streams_of(alloc: Global, outside: Outside<'_>) -> Result<MemStreams, AllocError>
    requires reads { 1 ≤ outside.reads.piece }
    requires writes { 1 ≤ outside.writes.piece }
{
    let Outside {
        script,
        reads,
        writes,
        seeds,
    } = outside;
    let source = source_of(alloc, script.as_bytes(), reads)?;
    let sink = MemSink::new(alloc, 65_536, writes.piece, call_list(alloc, writes.fails)?)?;
    Ok(Streams {
        source,
        sink,
        seeds,
        difference: None,
    })
}

/// Returns a source of this text.
pub(crate) fn source_of(alloc: Global, text: &[u8], reads: Calls) -> Result<MemSource, AllocError>
    requires { 1 ≤ reads.piece }
{
    let text = Vec::from_slice(alloc, text)?;
    Ok(MemSource::new(text, reads.piece, call_list(alloc, reads.fails)?))
}

/// The call of this number on a mount, from 0, has this reply.
#[derive(Drop)]
pub(crate) struct Instead {
    pub(crate) at: u64,
    pub(crate) reply: Option<Reply>,
}

/// No reply is replaced: no run has that many calls.
pub(crate) fn as_it_is() -> Instead {
    Instead {
        at: u64::MAX,
        reply: None,
    }
}

// Returns an empty mount with one reply replaced by this one.
fn replaced<A: Abort>(rt: &A, alloc: Global, instead: Instead) -> Replaced {
    let Instead { at, reply } = instead;
    Replaced {
        mount: Mount::new(alloc).expect(rt, "memory"),
        calls: 0,
        at,
        reply,
    }
}

// Returns how a run ends on two of these.
fn ran<A: Abort>(
    rt: &A,
    alloc: Global,
    words: &Vec<String>,
    streams: &mut MemStreams,
    even: Instead,
    odd: Instead,
) -> Status {
    let mounts = Mounts {
        even: replaced(rt, alloc, even),
        odd: replaced(rt, alloc, odd),
    };
    tool_serial(alloc, words, streams, mounts)
}

/// Runs the tool with these arguments, with one reply of each of the two mounts replaced. Returns how it
/// ends, and what it writes.
pub(crate) fn run_of<A: Abort>(
    rt: &A,
    alloc: Global,
    words: &[&str],
    outside: Outside<'_>,
    even: Instead,
    odd: Instead,
) -> (Status, Vec<u8>)
    requires reads { 1 ≤ outside.reads.piece }
    requires writes { 1 ≤ outside.writes.piece }
{
    let words = words_of(alloc, words).expect(rt, "memory");
    let mut streams = streams_of(alloc, outside).expect(rt, "memory");
    let status = ran(rt, alloc, &words, &mut streams, even, odd);
    (status, got(rt, alloc, &streams))
}

/// Returns what was written.
pub(crate) fn got<A: Abort>(rt: &A, alloc: Global, streams: &MemStreams) -> Vec<u8> {
    Vec::from_slice(alloc, streams.sink.got()).expect(rt, "memory")
}

/// Runs this form with the seed of the tests. Returns how it ends, and what it writes.
pub(crate) fn log_of<A: Abort>(
    rt: &A,
    alloc: Global,
    form: &str,
    script: &str,
    even: Instead,
    odd: Instead,
) -> (Status, Vec<u8>) {
    let outside = Outside {
        script,
        reads: BY_4096,
        writes: BY_4096,
        seeds: FixedSeed::failing(),
    };
    run_of(
        rt,
        alloc,
        &[form, "--serial", "--seed", SEED],
        outside,
        even,
        odd,
    )
}
