//! Sinks of bytes: the trait, and two sinks in memory.

ghost use Rattle.std.specs.Prelude.{◌≡◌, ◌≤◌, ◌<◌, ◌↔◌, [], length, None};
ghost use Rattle.std.specs.Prelude.{Some, IfOk, IsErr, IsTrue, OnErr, vec_len, vec_capacity};
ghost use Rattle.std.specs.Io.{WritesAtMost};
ghost use Rattle.std.specs.Io.KnownBytes.{WriteAppends};
ghost use Rattle.fsc_outside.specs.Causes.{HasCause};
ghost use Rattle.fsc_outside.specs.States.{SinkState};
ghost use Rattle.fsc_outside.specs.Sinks.{Tank, RefusesNext, next_accepted, failed_write, after_write};

use crate::{CallList, Failed, is_listed};
use std::alloc::{AllocError, Global};
use std::marker::Model;

/// A sink of bytes. In contracts its state is the bytes that it got, if they are known, and how often a
/// call failed.
pub trait Sink {
    /// What is known of it now. Its count never falls.
    ghost state: { Self → SinkState };

    /// Takes bytes from the beginning of `piece` and returns how many: at least one of a nonempty
    /// `piece`.
    fn write(&mut self, piece: &[u8]) -> Result<usize, Failed>
        ensures bound { WritesAtMost result piece.now }
        ensures progress { IfOk result (λ count. 0 < length piece.now → 0 < count) }
        ensures bytes { WriteAppends (state self.old).got (state self.new).got result piece.now }
        ensures cause { HasCause (state self.old).faults (state self.new).faults result };
}

/// A sink in memory with a given capacity, which fails at the calls that are listed. In clauses it is a
/// `Tank`.
#[derive(Drop)]
pub struct MemSink {
    got: Vec<u8>,
    room: usize,
    piece: usize,
    fails: CallList,
    calls: u64,
    faults: u64,
}

impl Model for MemSink {
    ghost use Rattle.std.specs.Prelude.{◌≤◌, vec_len, vec_capacity};
    ghost use Rattle.fsc_outside.specs.Sinks.{Tank};

    ghost Value = { Tank };

    ghost view = { λ s. record {
      got = s.got.items;
      room = s.room;
      piece = s.piece;
      fails = s.fails;
      calls = s.calls;
      faults = s.faults;
    } };

    // The memory was allocated when the sink was made, so no write allocates.
    ghost invariant = { λ s. (1 ≤ s.piece) × (vec_len s.got ≤ s.room) × (s.room ≤ vec_capacity s.got) };
}

impl MemSink {
    /// Returns a sink with a capacity of `room` bytes that takes at most `piece` of them a call. Calls
    /// count from 0, and those in `fails` fail. A write of bytes into the full sink fails too. The only
    /// error is out of memory.
    pub fn new(
        alloc: Global,
        room: usize,
        piece: usize,
        fails: CallList,
    ) -> Result<MemSink, AllocError>
        requires { 1 ≤ piece }
        ensures { IfOk result (λ sink.
            sink ≡ record { got = []; room = room; piece = piece; fails = fails; calls = 0; faults = 0 }) }
    {
        let got = Vec::with_capacity(alloc, room)?;
        Ok(MemSink {
            got,
            room,
            piece,
            fails,
            calls: 0,
            faults: 0,
        })
    }

    /// Returns the bytes got so far.
    pub fn got(&self) -> &[u8]
        ensures { result.now ≡ self.now.got }
    {
        self.got.as_slice()
    }
}

impl Sink for MemSink {
    ghost state = { λ s. record { got = Some s.got; faults = s.faults } };

    fn write(&mut self, piece: &[u8]) -> Result<usize, Failed>
        ensures bound { WritesAtMost result piece.now }
        ensures progress { IfOk result (λ count. 0 < length piece.now → 0 < count) }
        ensures bytes { WriteAppends (Some self.old.got) (Some self.new.got) result piece.now }
        ensures cause { HasCause self.old.faults self.new.faults result }
        ensures fails { IsErr result ↔ RefusesNext self.old (length piece.now) }
        ensures failed { OnErr result (self.new ≡ failed_write self.old) }
        ensures took { IfOk result (λ n. (n ≡ next_accepted self.old (length piece.now))
            × (self.new ≡ after_write self.old piece.now n)) }
    {
        let call = self.calls;
        self.calls = call.saturating_add(1);
        let left = self.room - self.got.len();
        if is_listed(&self.fails, call) || has_no_room(left, piece) {
            self.faults = self.faults.saturating_add(1);
            return Err(Failed);
        }
        let count = self.piece.min(piece.len()).min(left);
        if self.got.extend_from_slice(&piece[..count]).is_err() {
            self.faults = self.faults.saturating_add(1);
            return Err(Failed);
        }
        Ok(count)
    }
}

/// A sink that takes each piece whole, stores no byte and never fails.
#[derive(Clone, Copy)]
pub struct SteadySink;

impl SteadySink {
    /// Returns the sink.
    pub fn new() -> SteadySink
        ensures { result ≡ record {} }
    {
        SteadySink
    }
}

impl Sink for SteadySink {
    ghost state = { λ _. record { got = None; faults = 0 } };

    fn write(&mut self, piece: &[u8]) -> Result<usize, Failed>
        ensures bound { WritesAtMost result piece.now }
        ensures progress { IfOk result (λ count. 0 < length piece.now → 0 < count) }
        ensures bytes { WriteAppends None None result piece.now }
        ensures cause { HasCause 0 0 result }
        ensures whole { result ≡ Ok (length piece.now) }
    {
        Ok(piece.len())
    }
}

// Whether there are bytes and no space for any.
fn has_no_room(left: usize, piece: &[u8]) -> bool
    ensures { IsTrue result ↔ ((0 < length piece.now) × (left ≡ 0)) }
{
    left == 0 && !piece.is_empty()
}
