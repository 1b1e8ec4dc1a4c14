//! One command of a caller, run on a port.

ghost use Rattle.std.specs.Prelude.{◌≡◌, ◌≤◌, IfOk, OnErr};
ghost use Rattle.mount_model.specs.Fits.{OpFits};
ghost use Rattle.script_lang.specs.CommandTasks.{IsAskable};
ghost use Rattle.fsc_commands.specs.Commands.{command_steps, task_steps};
ghost use Rattle.fsc_commands.specs.Tasks.Task.{Single};
ghost use Rattle.fsc_commands.specs.Steps.{names_in};
ghost use Rattle.fsc_commands.specs.MadeCalls.{MadeCalls, Begun};
ghost use Rattle.fsc_commands.specs.Work.{WorkResult};
ghost use Rattle.fsc_commands.specs.Callers.{MayAsk};
ghost use Rattle.fsc_commands.specs.declared.TheConstants.{MAX_CALLS};

use crate::calls::plain_op;
use crate::work::{Caller, Work};
use crate::{EntryList, MAX_CALLS};
use argon_kdf::Stretch;
use mount_model::{MountPort, Op};
use reply_text::Outcome;
use script_lang::Verb;
use session_records::{Stop, Turn};
use std::alloc::{AllocError, Global};

/// Runs a command, and appends what a log shows of its calls and replies to the caller's entries. Returns
/// the outcome of a session's work. The only error is out of memory; the calls made are then those with
/// which the command's steps begin. It is never inlined, so that what it leaves on the stack is below the
/// frame of its caller.
#[inline(never)]
pub fn run_command<P: MountPort, S: Stretch>(
    alloc: Global,
    port: &mut P,
    stretches: &S,
    seed: &[u8; 32],
    turn: Turn,
    verb: &Verb,
    entries: &mut EntryList,
) -> Result<Option<Outcome>, AllocError>
    requires ready { S.ready stretches.now }
    requires caller { turn.caller ≡ P.who port.old }
    requires left { MAX_CALLS ≤ P.calls_left port.old }
    requires asked { IsAskable verb.now }
    ensures made { IfOk result (λ outcome. MadeCalls (P.after_calls port.old) port.new (P.calls_left port.new)
        (P.calls_left port.old) MAX_CALLS
        (command_steps seed.now turn.caller turn.uid turn.number (names_in entries.old) verb.now)
        outcome entries.old entries.new) }
    ensures caller { P.who port.new ≡ P.who port.old }
    ensures failed { OnErr result (Begun (P.after_calls port.old) port.new MAX_CALLS
        (command_steps seed.now turn.caller turn.uid turn.number (names_in entries.old) verb.now)) }
{
    let work = Work {
        alloc,
        stretches,
        seed,
        turn,
    };
    let mut caller = Caller { port, entries };
    match work.run(&mut caller, verb) {
        Ok(outcome) => Ok(outcome),
        Err(Stop::Ended(outcome)) => Ok(Some(outcome)),
        Err(Stop::NoMemory) => Err(AllocError),
    }
}

impl<'a, S: Stretch> Work<'a, S> {
    // Runs a command: its one call, or a session's work.
    fn run<P: MountPort>(
        &self,
        caller: &mut Caller<P>,
        verb: &Verb,
    ) -> Result<Option<Outcome>, Stop>
        requires stretches { S.ready self.now.stretches.now }
        requires ready { MayAsk P.who P.calls_left MAX_CALLS self.now.turn caller.old }
        requires asked { IsAskable verb.now }
        ensures { WorkResult P.after_calls P.who P.calls_left caller.old caller.new MAX_CALLS
            (command_steps self.now.seed.now self.now.turn.caller self.now.turn.uid self.now.turn.number
            (names_in caller.old.entries.now) verb.now) result }
    {
        match plain_op(self.alloc, self.seed, self.turn, caller.entries, verb)? {
            Some(op) => self.make_call(caller, op),
            None => self.run_session(caller, verb),
        }
    }
}

impl<'a, S> Work<'a, S> {
    // Makes the one call of a command.
    fn make_call<P: MountPort>(
        &self,
        caller: &mut Caller<P>,
        op: Op,
    ) -> Result<Option<Outcome>, Stop>
        requires ready { MayAsk P.who P.calls_left MAX_CALLS self.now.turn caller.old }
        requires fits { OpFits op }
        ensures { WorkResult P.after_calls P.who P.calls_left caller.old caller.new MAX_CALLS
            (task_steps self.now.turn.caller self.now.turn.uid (Single op)) result }
    {
        let placed = self.ask_for(caller, op)?;
        caller.entries.push(placed)?;
        Ok(None)
    }
}
