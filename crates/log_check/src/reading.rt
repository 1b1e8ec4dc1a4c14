//! A text that is read line by line, with the callers that take its entries.

ghost use Rattle.std.specs.Prelude.{◌≡◌, ◌+◌, ◌<◌, ◌^◌, All, IfOk, length};
ghost use Rattle.log_check.specs.Endings.{IsVerdictHere};
ghost use Rattle.log_check.specs.NextLines.{IsLineRead};

use crate::check::Verdict;
use crate::ending::is_ended;
use crate::next_caller::next_caller_line;
use crate::one_thread::OneThread;
use crate::read_reply::read_reply;
use argon_kdf::Stretch;
use next_calls::{Caller, Remembering};
use std::alloc::{AllocError, Global};

// A text from a place on, and the callers of a script, which took the entries before it.
#[derive(Drop)]
pub(crate) struct Reading<'a, 't> {
    pub(crate) callers: Vec<Caller<'a>>,
    pub(crate) place: u64,
    pub(crate) rest: &'t [u8],
}

impl<'a, 't> Reading<'a, 't> {
    // Reads the next line. Returns true if a caller may have such a line next, and the mount may reply so.
    // A strict check reads no line of a call that was out of memory. Each caller has a way to stretch of
    // its own.
    pub(crate) fn read_line<'w, S: Stretch, T: OneThread>(
        &mut self,
        alloc: Global,
        strict: bool,
        ways: &[Remembering<'w, S>],
        seed: &[u8; 32],
        mount: &mut T,
    ) -> Result<bool, AllocError>
        requires ready { All S.ready ways.now }
        requires ways { length ways.now ≡ length self.old.callers.items }
        requires room { self.old.place + length self.old.rest.now < 2 ^ 64 }
        ensures many { length self.new.callers.items ≡ length self.old.callers.items }
        ensures room { self.new.place + length self.new.rest.now < 2 ^ 64 }
        ensures read { IfOk result (IsLineRead strict T.reached_by seed.now
            self.old.callers.items self.old.place self.old.rest.now mount.old
            self.new.callers.items self.new.place self.new.rest.now mount.new) }
    {
        let found = next_caller_line(alloc, self.callers.as_slice(), self.place, self.rest)?;
        let Some((number, call)) = found else {
            return Ok(false);
        };
        let caller = self.callers[number].caller();
        let read_reply = read_reply(alloc, strict, self.place, caller, call, self.rest, mount)?;
        let Some((reply, behind)) = read_reply else {
            return Ok(false);
        };
        self.callers[number].take(alloc, &ways[number], seed, reply)?;
        self.rest = behind;
        self.place += 1;
        Ok(true)
    }

    // Returns the verdict if no further line was read.
    pub(crate) fn verdict(&self, alloc: Global) -> Result<Verdict, AllocError>
        ensures { IfOk result (IsVerdictHere self.now.callers.items self.now.place self.now.rest.now) }
    {
        if is_ended(alloc, self.callers.as_slice(), self.rest)? {
            return Ok(Verdict::Certified);
        }
        Ok(Verdict::Refused { place: self.place })
    }
}
