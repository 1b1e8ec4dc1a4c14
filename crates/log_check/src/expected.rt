//! What a run of a script has at the place of a log's refusal.

ghost use Rattle.std.specs.Prelude.{◌≡◌, ◌≢◌, [], All, IfOk, IfSome, OnOk, length};
ghost use Rattle.log_check.specs.Expected.{IsExpected};
ghost use Rattle.log_check.specs.ExpectedCallers.{IsAnsweredLine, IsCallAt, IsExpectedHere, IsWaiting};
ghost use Rattle.mount_model.specs.Fits.{Fits};
ghost use Rattle.mount_model.specs.declared.reply.Refusal.TheVariants.{NoMemory};
ghost use Rattle.mount_model.specs.declared.reply.Reply.TheVariants.{Refused};
ghost use Rattle.reply_text.specs.Log.{entry_text};
ghost use Rattle.script_lang.specs.Spelled.{IsSpelled};

use crate::ending::notes_of;
use crate::one_thread::OneThread;
use crate::read_reply::reports_no_memory;
use crate::reading::Reading;
use crate::start::{begin_callers, forget, forget_callers, remembering_ways};
use argon_kdf::Stretch;
use call_history::Entry;
use fsc_commands::wipe_call;
use fsc_session::scrub_stack;
use item_list::Bytes;
use mount_model::{Call, Reply};
use next_calls::{Caller, Remembering};
use reply_text::{entry_in_range, entry_line};
use script_lang::Script;
use std::alloc::{AllocError, Global};
use text_words::{decimal_value, next_line, nth_word};

/// What a run of a script has after the lines that a text has of it.
#[derive(Drop)]
pub enum Continuation {
    /// This line, of a caller's next call, and the line of the script that the call's command is on.
    Line { line: Bytes, command: Option<u32> },
    /// The lines of these notes, since all calls are made.
    Notes(Bytes),
}

/// Returns what a run of a script has after the first `place` lines of a text, on a mount that was not
/// called yet, or `None` if no run has that many of them. If the text continues with a line of a caller
/// that has a call to make, the result is that caller's line. The one error is out of memory: its own,
/// or the mount's at a call that it is asked.
pub fn expected_after<S: Stretch, T: OneThread>(
    alloc: Global,
    stretches: &S,
    script: &Script,
    seed: &[u8; 32],
    text: &[u8],
    place: u64,
    mount: &mut T,
) -> Result<Option<Continuation>, AllocError>
    requires ready { S.ready stretches.now }
    requires spelled { IsSpelled script.now }
    requires reached_by { T.reached_by [] mount.old }
    ensures { IfOk result (λ next. IfSome next (IsExpected seed.now script.now text.now place)) }
{
    let ways = remembering_ways(alloc, stretches, script.len())?;
    let next = continuation_by_ways(alloc, ways.as_slice(), script, seed, text, place, mount);
    forget(ways);
    scrub_stack();
    next
}

// The same, with a way to stretch for each caller.
fn continuation_by_ways<'w, S: Stretch, T: OneThread>(
    alloc: Global,
    ways: &[Remembering<'w, S>],
    script: &Script,
    seed: &[u8; 32],
    text: &[u8],
    place: u64,
    mount: &mut T,
) -> Result<Option<Continuation>, AllocError>
    requires ready { All S.ready ways.now }
    requires ways { length ways.now ≡ length script.now }
    requires spelled { IsSpelled script.now }
    requires reached_by { T.reached_by [] mount.old }
    ensures { IfOk result (λ next. IfSome next (IsExpected seed.now script.now text.now place)) }
{
    let mut reading = Reading {
        callers: begin_callers(alloc, ways, script, seed)?,
        place: 0,
        rest: text,
    };
    'lines: loop {
        if reading.place == place {
            let next = reading.continuation(alloc, mount);
            forget_callers(alloc, reading.callers);
            return Ok(Some(next?));
        }
        if !reading.read_line(alloc, false, ways, seed, mount)? {
            forget_callers(alloc, reading.callers);
            return Ok(None);
        }
    }
}

impl<'a, 't> Reading<'a, 't> {
    // What comes next.
    fn continuation<T: OneThread>(
        &self,
        alloc: Global,
        mount: &mut T,
    ) -> Result<Continuation, AllocError>
        ensures { IfOk result (IsExpectedHere T.reached_by self.now.callers.items self.now.place self.now.rest.now mount.old) }
    {
        match waiting_caller(alloc, self.callers.as_slice(), self.rest)? {
            Some((number, call)) => {
                let own = &self.callers[number];
                let caller = own.caller();
                let command = own.line();
                let line = line_of_call(alloc, self.place, caller, call, mount)?;
                Ok(Continuation::Line { line, command })
            }
            None => Ok(Continuation::Notes(notes_of(alloc, self.callers.as_slice())?)),
        }
    }
}

// Returns the line of the caller's call, with the mount's reply to it. Wipes what no log shows of the call.
fn line_of_call<T: OneThread>(
    alloc: Global,
    place: u64,
    caller: u32,
    call: Call,
    mount: &mut T,
) -> Result<Bytes, AllocError>
    requires fits { Fits call }
    ensures { IfOk result (IsAnsweredLine T.reached_by mount.old mount.new place caller call) }
{
    let reply = mount.answer(caller, &call);
    let mut answered = Entry {
        who: caller,
        call,
        reply,
    };
    entry_in_range(&answered);
    let line = answered_line(alloc, place, &answered);
    wipe_call(alloc, &mut answered.call);
    line
}

// The entry's line. If its reply is out of memory, there is no memory to find what a run has.
fn answered_line(
    alloc: Global,
    place: u64,
    answered: &Entry<Call, Reply>,
) -> Result<Bytes, AllocError>
    ensures line { IfOk result (λ line. line ≡ entry_text place answered.now) }
    ensures memory { OnOk result (answered.now.reply ≢ Refused NoMemory) }
{
    if reports_no_memory(&answered.reply) {
        return Err(AllocError);
    }
    entry_line(alloc, place, answered)
}

// Returns a caller that waits for a reply, by its number, with the call: the one that the text's next line
// names, if it waits, and otherwise the first.
fn waiting_caller<'a>(
    alloc: Global,
    callers: &[Caller<'a>],
    text: &[u8],
) -> Result<Option<(usize, Call)>, AllocError>
    ensures { IfOk result (IsWaiting callers.now) }
{
    if let Some(number) = named_caller(text) {
        if let Some(call) = call_at(alloc, callers, number)? {
            return Ok(Some((number, call)));
        }
    }
    'callers: for number in 0..callers.len() {
        if let Some(call) = call_at(alloc, callers, number)? {
            return Ok(Some((number, call)));
        }
    }
    Ok(None)
}

// The caller that the next line names in its second word.
fn named_caller(text: &[u8]) -> Option<usize> {
    let number = decimal_value(nth_word(next_line(text).bytes, 1)?)?;
    Some(number as usize)
}

// The call that the caller of this number makes next.
fn call_at<'a>(
    alloc: Global,
    callers: &[Caller<'a>],
    number: usize,
) -> Result<Option<Call>, AllocError>
    ensures { IfOk result (IsCallAt callers.now number) }
{
    let Some(caller) = callers.get(number) else {
        return Ok(None);
    };
    let Some(call) = caller.waiting() else {
        return Ok(None);
    };
    Ok(Some(call.copy(alloc)?))
}
