//! Sources, sinks and seeds.

use crate::runs::{Calls, call_list, source_of};
use fsc_outside::{
    FixedSeed, InputFault, InputLimits, MemSink, MemSource, RuntimeSeed, SeedSource, Sink, Source,
    StdSink, StdSource, SteadySink, SteadySource, read_all,
};
use std::alloc::{AllocError, Global};
use std::io;
use std::process::Abort;
use std::random::RandomSource;

const TEXT: &[u8; 18] = b"one two three four";

// Returns a sink with space for the text, which takes five bytes a call and fails at this one.
fn failing_sink(alloc: Global, listed: u32) -> Result<MemSink, AllocError> {
    MemSink::new(alloc, TEXT.len(), 5, call_list(alloc, Some(listed))?)
}

// Writes the piece, once more if the first call fails. Returns whether it failed.
fn write_once<A: Abort>(rt: &A, sink: &mut MemSink, piece: &[u8]) -> bool {
    let (taken, has_failed) = match sink.write(piece) {
        Ok(taken) => (taken, false),
        Err(_) => (sink.write(piece).expect(rt, "an answer"), true),
    };
    assert!(rt; taken == piece.len());
    has_failed
}

// Copies what one call reads. The read fails exactly if it is the listed one. Returns whether a write
// failed.
fn copy_once<A: Abort>(
    rt: &A,
    source: &mut MemSource,
    sink: &mut MemSink,
    is_listed: bool,
) -> bool {
    let mut piece = [0; 8];
    let read = source.read(&mut piece);
    assert!(rt; read.is_err() == is_listed);
    match read {
        Ok(count) => write_once(rt, sink, &piece[..count]),
        Err(_) => false,
    }
}

// Expects that the listed call fails and no other, and that the text arrives.
fn expect_copied<A: Abort>(rt: &A, source: &mut MemSource, sink: &mut MemSink, listed: u32) {
    let mut has_failed = false;
    for call in 0..5u32 {
        has_failed |= copy_once(rt, source, sink, call == listed);
    }
    assert!(rt; has_failed);
    assert!(rt; sink.got() == TEXT.as_slice());
    assert!(rt; sink.write(b"!").is_err());
}

// Each call that the lists name fails and no other, and what comes before and after arrives.
#[test]
fn each_listed_call_fails_alone(rt: HostRuntime) {
    for listed in 0..4u32 {
        let reads = Calls {
            piece: 5,
            fails: Some(listed),
        };
        let mut source = source_of(rt.alloc(), TEXT, reads).expect(&rt, "memory");
        let mut sink = failing_sink(rt.alloc(), listed).expect(&rt, "memory");
        expect_copied(&rt, &mut source, &mut sink, listed);
    }
}

// Returns how many bytes are read.
fn count_read<A: Abort, S: Source>(rt: &A, source: &mut S, piece: &mut [u8]) -> usize {
    source.read(piece).expect(rt, "an answer")
}

// Returns how many bytes are taken.
fn count_written<A: Abort, K: Sink>(rt: &A, sink: &mut K, piece: &[u8]) -> usize {
    sink.write(piece).expect(rt, "an answer")
}

#[test]
fn standard_streams_answer(rt: HostRuntime) {
    let mut piece = [0; 4];
    assert!(rt;
        count_read(
            &rt,
            &mut StdSource::over(b"some text".as_slice()),
            &mut piece
        ) == 4
    );
    assert!(rt; piece.as_slice() == b"some".as_slice());
    assert!(rt; count_read(&rt, &mut StdSource::new(&rt), &mut []) == 0);
    assert!(rt; count_written(&rt, &mut StdSink::new(&rt), b"") == 0);
}

fn steady_source(alloc: Global, text: &[u8]) -> Result<SteadySource, AllocError> {
    Ok(SteadySource::new(Vec::from_slice(alloc, text)?))
}

#[test]
fn steady_fakes_answer(rt: HostRuntime) {
    let mut steady = steady_source(rt.alloc(), b"abc").expect(&rt, "memory");
    assert!(rt; count_read(&rt, &mut steady, &mut [0; 4]) == 3);
    assert!(rt; count_written(&rt, &mut SteadySink::new(), b"abc") == 3);
    assert!(rt; FixedSeed::new([7; 32]).seed().expect(&rt, "an answer")[31] == 7);
    assert!(rt; FixedSeed::failing().seed().is_err());
}

// A random source that has no entropy.
struct Broken;

impl RandomSource for Broken {
    fn fill_bytes(&self, _bytes: &mut [u8]) -> io::Result<()> {
        Err(io::Error::from_raw_os_error(5))
    }
}

// Returns whether no two of these seeds are alike.
fn are_apart(given: &[[u8; 32]; 16]) -> bool {
    for i in 0..16 {
        for j in 0..i {
            if given[i] == given[j] {
                return false;
            }
        }
    }
    true
}

// Returns whether no byte is the same in all.
fn each_byte_changes(given: &[[u8; 32]; 16]) -> bool {
    for place in 0..32 {
        let mut is_same = true;
        for i in 1..16 {
            is_same &= given[i][place] == given[0][place];
        }
        if is_same {
            return false;
        }
    }
    true
}

#[test]
fn the_runtime_gives_other_bytes_each_time(rt: HostRuntime) {
    let mut seeds = RuntimeSeed::new(&rt);
    let mut given = [[0; 32]; 16];
    for i in 0..16 {
        given[i] = seeds.seed().expect(&rt, "an answer");
    }
    assert!(rt; are_apart(&given));
    assert!(rt; each_byte_changes(&given));
    assert!(rt; RuntimeSeed::new(&Broken).seed().is_err());
}

const LIMITS: InputLimits = InputLimits { bytes: 6, lines: 2 };

// A text, what is read of it within the limits, and how many bytes the next call then returns.
type InputRow = (&'static str, Result<&'static str, InputFault>, usize);

static INPUTS: [InputRow; 5] = [
    ("", Ok(""), 0),
    ("a\nb\n", Ok("a\nb\n"), 0),
    ("a\nb\nc", Err(InputFault::TooLong), 0),
    ("abcdef", Ok("abcdef"), 0),
    ("abcdefgh", Err(InputFault::TooLong), 1),
];

// Returns whether this is read from the source.
fn gives(alloc: Global, source: &mut SteadySource, wanted: &Result<&str, InputFault>) -> bool {
    match (read_all(alloc, source, LIMITS), wanted) {
        (Ok(text), Ok(wanted)) => text.as_slice() == wanted.as_bytes(),
        (Err(fault), Err(wanted)) => fault == *wanted,
        _ => false,
    }
}

// Expects that the source of the row's text gives what the row has.
fn expect_input<A: Abort>(rt: &A, alloc: Global, source: &mut SteadySource, row: &InputRow) {
    let (text, wanted, left) = row;
    assert!(rt; gives(alloc, source, wanted), "of {text:?}");
    assert!(rt;
        count_read(rt, source, &mut [0; 8]) == *left,
        "behind {text:?}"
    );
}

// A text at a limit is read, and one line or byte more is too long. Nothing is read after the first byte
// beyond the limit.
#[test]
fn inputs_are_read_within_their_limits(rt: HostRuntime) {
    for row in &INPUTS {
        let mut source = steady_source(rt.alloc(), row.0.as_bytes()).expect(&rt, "memory");
        expect_input(&rt, rt.alloc(), &mut source, row);
    }
}
