//! Sources of bytes: the trait, and two sources in memory.

ghost use Rattle.std.specs.Prelude.{◌≡◌, ℕ, ◌≤◌, ◌<◌, ◌↔◌, List, [], ◌∷◌, ◌++◌, length, take, drop};
ghost use Rattle.std.specs.Prelude.{Some, IfOk, IsErr, OnErr, min, vec_len};
ghost use Rattle.std.specs.Io.{ReadsAtMost};
ghost use Rattle.std.specs.Io.KnownBytes.{ReadConsumes};
ghost use Rattle.fsc_outside.specs.Causes.{HasCause};
ghost use Rattle.fsc_outside.specs.States.{SourceState};
ghost use Rattle.fsc_outside.specs.Reads.{ReadCall, AreReads, read_call};
ghost use Rattle.fsc_outside.specs.ReadLaws.{AreReads-none, AreReads-on, AreFeeds-none, AreFeeds-on};
ghost use Rattle.fsc_outside.specs.Sources.{Feed, AreFeeds, FailsNext, next_count, after_failure, after_read};
ghost use Rattle.fsc_outside.specs.Sources.{state_of_feed, steady};

use crate::{CallList, Failed, is_listed};
use std::marker::Model;

/// A source of bytes. In contracts its state is the bytes that are left, if they are known, and how often
/// a call failed; `after_calls` relates two states by the calls between them.
pub trait Source {
    /// What is known of it now. Its count never falls.
    ghost state: { Self → SourceState };

    /// These calls, one after another, change the first source to the second.
    ghost after_calls: { Self → List ReadCall → Self → Type 0 };

    /// Writes the next bytes to the beginning of `piece` and returns how many. 0 for a nonempty `piece`
    /// means the end.
    fn read(&mut self, piece: &mut [u8]) -> Result<usize, Failed>
        ensures bound { ReadsAtMost result piece.new }
        ensures bytes { ReadConsumes (state self.old).left (state self.new).left result piece.new }
        ensures cause { HasCause (state self.old).faults (state self.new).faults result }
        ensures after_calls { after_calls self.old (read_call piece.new result ∷ []) self.new };

    /// An empty list of calls relates each source to itself.
    ghost by_none: { (source : Self) → after_calls source [] source };

    /// Two lists of calls, one after the other, relate the first source to the last.
    ghost by_more: { (first second third : Self) (calls more : List ReadCall)
        → after_calls first calls second → after_calls second more third
        → after_calls first (calls ++ more) third };
}

/// A source in memory that gives pieces, and fails at the calls that are listed. In clauses it is a
/// `Feed`.
#[derive(Drop)]
pub struct MemSource {
    bytes: Vec<u8>,
    at: usize,
    piece: usize,
    fails: CallList,
    calls: u64,
    faults: u64,
}

impl Model for MemSource {
    ghost use Rattle.std.specs.Prelude.{◌≤◌, drop, vec_len};
    ghost use Rattle.fsc_outside.specs.Sources.{Feed};

    ghost Value = { Feed };

    ghost view = { λ s. record {
      left = drop s.at s.bytes.items;
      piece = s.piece;
      fails = s.fails;
      calls = s.calls;
      faults = s.faults;
    } };

    ghost invariant = { λ s. (1 ≤ s.piece) × (s.at ≤ vec_len s.bytes) };
}

impl MemSource {
    /// Returns a source of these bytes that gives at most `piece` of them a call. Calls count from 0, and
    /// those in `fails` fail.
    pub fn new(bytes: Vec<u8>, piece: usize, fails: CallList) -> MemSource
        requires { 1 ≤ piece }
        ensures { result
            ≡ record { left = bytes.items; piece = piece; fails = fails; calls = 0; faults = 0 } }
    {
        MemSource {
            bytes,
            at: 0,
            piece,
            fails,
            calls: 0,
            faults: 0,
        }
    }
}

impl Source for MemSource {
    ghost state = { state_of_feed };

    ghost after_calls = { AreFeeds };

    ghost by_none = { AreFeeds-none };

    ghost by_more = { AreFeeds-on };

    fn read(&mut self, piece: &mut [u8]) -> Result<usize, Failed>
        ensures bound { ReadsAtMost result piece.new }
        ensures bytes { ReadConsumes (Some self.old.left) (Some self.new.left) result piece.new }
        ensures cause { HasCause self.old.faults self.new.faults result }
        ensures after_calls { AreFeeds self.old (read_call piece.new result ∷ []) self.new }
        ensures fails { IsErr result ↔ FailsNext self.old }
        ensures failed { OnErr result (self.new ≡ after_failure self.old) }
        ensures gave { IfOk result (λ n. (n ≡ next_count self.old (length piece.old))
            × (self.new ≡ after_read self.old n)) }
    {
        let call = self.calls;
        self.calls = call.saturating_add(1);
        if is_listed(&self.fails, call) {
            self.faults = self.faults.saturating_add(1);
            return Err(Failed);
        }
        let count = give(&self.bytes[self.at..], self.piece, piece);
        self.at += count;
        Ok(count)
    }
}

/// A source in memory that never fails. In clauses it is the list of the bytes left.
#[derive(Drop)]
pub struct SteadySource {
    bytes: Vec<u8>,
    at: usize,
}

impl Model for SteadySource {
    ghost Value = { List ℕ };

    ghost view = { λ s. drop s.at s.bytes.items };

    ghost invariant = { λ s. s.at ≤ vec_len s.bytes };
}

impl SteadySource {
    /// Returns a source of these bytes.
    pub fn new(bytes: Vec<u8>) -> SteadySource
        ensures { result ≡ bytes.items }
    {
        SteadySource { bytes, at: 0 }
    }
}

impl Source for SteadySource {
    ghost state = { steady };

    ghost after_calls = { λ old calls new. AreReads (steady old) calls (steady new) };

    ghost by_none = { λ s. AreReads-none (steady s) };

    ghost by_more = { λ a b c. AreReads-on (steady a) (steady b) (steady c) };

    fn read(&mut self, piece: &mut [u8]) -> Result<usize, Failed>
        ensures bound { ReadsAtMost result piece.new }
        ensures bytes { ReadConsumes (Some self.old) (Some self.new) result piece.new }
        ensures cause { HasCause 0 0 result }
        ensures after_calls { AreReads (steady self.old) (read_call piece.new result ∷ []) (steady self.new) }
        ensures gave { result ≡ Ok (min (length piece.old) (length self.old)) }
    {
        let count = give(&self.bytes[self.at..], usize::MAX, piece);
        self.at += count;
        Ok(count)
    }
}

// Writes the first of the bytes left to the beginning of `piece`, at most `most`, and returns how many.
fn give(left: &[u8], most: usize, piece: &mut [u8]) -> usize
    ensures count { result ≡ min (min most (length piece.old)) (length left.now) }
    ensures front { take result piece.new ≡ take result left.now }
{
    let count = most.min(piece.len()).min(left.len());
    piece[..count].copy_from_slice(&left[..count]);
    count
}
