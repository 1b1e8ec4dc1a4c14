//! The next step of a command.

ghost use Rattle.std.specs.Prelude.{◌≡◌, ◌+◌, ◌≤◌, length, take, drop, reverse, IfOk, OnOk};
ghost use Rattle.script_lang.specs.CommandTasks.{IsAskable};
ghost use Rattle.fsc_commands.specs.Commands.{command_steps};
ghost use Rattle.fsc_commands.specs.Steps.{names_in};
ghost use Rattle.next_calls.specs.NextCalls.{IsNext, NextFits, remaining_replies, logged_replies};
ghost use Rattle.next_calls.specs.declared.next.Next.TheVariants as variants;

use crate::back::take_back;
use argon_kdf::Stretch;
use fsc_commands::{EntryList, MAX_CALLS, Turn, run_command, wipe_call};
use mount_model::{Call, Reply};
use reply_text::Outcome;
use script_lang::Verb;
use scripted_port::{Further, ScriptedPort};
use std::alloc::{AllocError, Global};
use std::mem;

/// What a command does after the replies to its calls: it makes a call, or it has ended, with an outcome
/// if it is a session's work.
#[derive(Drop)]
pub enum Next {
    Call(Call),
    Ended(Option<Outcome>),
}

/// Returns what the command does after these replies, of which the last one in the vector comes first.
/// - If it makes a call, the entries and the replies are unchanged.
/// - If it has ended, what a log shows of its calls is appended to the entries. The replies are among
///   them, and the vector is empty.
///
/// The only error is out of memory; after it no contract describes the entries or the replies.
pub fn next_call<S: Stretch>(
    alloc: Global,
    stretches: &S,
    seed: &[u8; 32],
    turn: Turn,
    verb: &Verb,
    entries: &mut EntryList,
    replies: &mut Vec<Reply>,
) -> Result<Next, AllocError>
    requires ready { S.ready stretches.now }
    requires asked { IsAskable verb.now }
    ensures next { IfOk result (IsNext turn.caller
        (command_steps seed.now turn.caller turn.uid turn.number (names_in entries.old) verb.now)
        (reverse replies.old.items) entries.old entries.new) }
    ensures replies { IfOk result (λ next. replies.new.items ≡ remaining_replies replies.old.items next) }
    ensures fits { IfOk result NextFits }
{
    let kept = entries.len();
    let count = replies.len();
    let listed = mem::replace(replies, Vec::new(alloc));
    let mut port = ScriptedPort::new(alloc, turn.caller, MAX_CALLS, listed);
    let outcome = run_command(alloc, &mut port, stretches, seed, turn, verb, entries)?;
    match port.into_further() {
        Further::Unasked => Ok(Next::Ended(outcome)),
        Further::Asked(call) => following_call(alloc, call, entries, kept, replies, count),
        Further::Lost => Err(AllocError),
    }
}

// Returns the call as the next one. Removes the entries from the index `kept` on again, and puts back the
// replies of the first `count` of them, which are those that were listed.
fn following_call(
    alloc: Global,
    call: Call,
    entries: &mut EntryList,
    kept: usize,
    replies: &mut Vec<Reply>,
    count: usize,
) -> Result<Next, AllocError>
    requires { kept + count ≤ length entries.old }
    ensures next { IfOk result (λ it. it ≡ variants.Call call) }
    ensures kept { OnOk result (entries.new ≡ take kept entries.old) }
    ensures replies { OnOk result (reverse replies.new.items
        ≡ take count (logged_replies (drop kept entries.old))) }
{
    match take_back(alloc, entries, kept, count) {
        Ok(listed) => {
            *replies = listed;
            Ok(Next::Call(call))
        }
        Err(error) => {
            discard(alloc, call);
            Err(error)
        }
    }
}

// Wipes what no log shows of a call, and drops it. In a function of its own: in a function with branches,
// each branch would drop each variant.
pub(crate) fn discard(alloc: Global, call: Call) {
    let mut call = call;
    wipe_call(alloc, &mut call);
}
