//! The pieces of which a session's work is made: each is a call, and what follows from its reply.

ghost use Rattle.std.specs.Prelude.{◌≡◌, ◌<◌, ◌+◌, [], ◌∷◌, Some, IfOk, OnErr};
ghost use Rattle.mount_model.specs.declared.call.Call.{Call};
ghost use Rattle.mount_model.specs.Fits.{Fits, OpFits};
ghost use Rattle.fsc_commands.specs.Wiping.{wiped_call};
ghost use Rattle.fsc_commands.specs.CommandSteps.{last_call, call_of_caller};
ghost use Rattle.fsc_commands.specs.Opening.{loading_policy};
ghost use Rattle.fsc_commands.specs.MadeCalls.{entry_of_logged};
ghost use Rattle.fsc_commands.specs.Work.{WorkResult, WorkedPart};
ghost use Rattle.fsc_commands.specs.Callers.{AnsweredCall, IsSameCaller, MayAsk};
ghost use Rattle.reply_text.specs.Logged.{logged_entry};

use crate::wiping::wipe_call;
use crate::work::{Caller, Work};
use call_history::Entry;
use mount_model::{Call, MountPort, Op, Reply};
use reply_text::{LoggedCall, Outcome, to_logged};
use script_lang::Record;
use session_records::{
    ExpectedReply, LoadedPolicy, Stop, Turn, loaded_policy, outcome_of, record_name,
};
use short_bytes::Label;
use std::alloc::{AllocError, Global};

// Makes a call of the caller, and returns what a log shows of its entry, with its place. If it is out of
// memory, the call isn't made. Either way the bytes that the call carries are wiped.
fn ask<P: MountPort>(
    alloc: Global,
    port: &mut P,
    turn: Turn,
    call: &mut Call,
) -> Result<(u64, Entry<LoggedCall, Reply>), AllocError>
    requires caller { turn.caller ≡ P.who port.old }
    requires left { 0 < P.calls_left port.old }
    requires fits { Fits call.old }
    ensures after_calls { IfOk result (λ placed. P.after_calls port.old
        (entry_of_logged turn.caller call.old placed ∷ []) port.new) }
    ensures shown { IfOk result (λ placed. placed
        ≡ (placed.0, logged_entry (entry_of_logged turn.caller call.old placed).1)) }
    ensures wiped { call.new ≡ wiped_call call.old }
    ensures one_fewer { IfOk result (λ placed. P.calls_left port.new + 1 ≡ P.calls_left port.old) }
    ensures caller { P.who port.new ≡ P.who port.old }
    ensures unasked { OnErr result (port.new ≡ port.old) }
    ensures failed { OnErr result (P.after_calls port.old [] port.new) }
{
    let answered = ask_pending(alloc, port, turn, call);
    wipe_call(alloc, call);
    answered
}

// The same for a borrowed call, which isn't wiped.
fn ask_pending<P: MountPort>(
    alloc: Global,
    port: &mut P,
    turn: Turn,
    call: &Call,
) -> Result<(u64, Entry<LoggedCall, Reply>), AllocError>
    requires caller { turn.caller ≡ P.who port.old }
    requires left { 0 < P.calls_left port.old }
    requires fits { Fits call.now }
    ensures after_calls { IfOk result (λ placed. P.after_calls port.old
        (entry_of_logged turn.caller call.now placed ∷ []) port.new) }
    ensures shown { IfOk result (λ placed. placed
        ≡ (placed.0, logged_entry (entry_of_logged turn.caller call.now placed).1)) }
    ensures one_fewer { IfOk result (λ placed. P.calls_left port.new + 1 ≡ P.calls_left port.old) }
    ensures caller { P.who port.new ≡ P.who port.old }
    ensures unasked { OnErr result (port.new ≡ port.old) }
    ensures failed { OnErr result (P.after_calls port.old [] port.new) }
{
    let shown = to_logged(alloc, call)?;
    let placed = port.call(call);
    let entry = Entry {
        who: turn.caller,
        call: shown,
        reply: placed.reply,
    };
    Ok((placed.place, entry))
}

impl<'a, S> Work<'a, S> {
    // Makes a call for the user whose turn it is. Returns what a log shows of its entry, with its place;
    // the list doesn't have it yet.
    pub(crate) fn ask_for<P: MountPort>(
        &self,
        caller: &mut Caller<P>,
        op: Op,
    ) -> Result<(u64, Entry<LoggedCall, Reply>), AllocError>
        requires ready { MayAsk P.who P.calls_left 1 self.now.turn caller.old }
        requires fits { OpFits op }
        ensures answered { IfOk result (AnsweredCall P.after_calls P.calls_left caller.old caller.new
            self.now.turn.caller (call_of_caller self.now.turn.uid op)) }
        ensures same { IsSameCaller P.who caller.old caller.new }
        ensures failed { OnErr result (P.after_calls caller.old.port.now [] caller.new.port.now) }
    {
        let mut call = Call {
            uid: self.turn.uid,
            op,
        };
        ask(self.alloc, caller.port, self.turn, &mut call)
    }

    // Makes the last call of a session's work, whose reply determines the outcome.
    pub(crate) fn finish<P: MountPort>(
        &self,
        caller: &mut Caller<P>,
        op: Op,
        wanted: ExpectedReply,
    ) -> Result<Option<Outcome>, Stop>
        requires ready { MayAsk P.who P.calls_left 1 self.now.turn caller.old }
        requires fits { OpFits op }
        ensures { WorkResult P.after_calls P.who P.calls_left caller.old caller.new 1
            (last_call self.now.turn.caller self.now.turn.uid op wanted) result }
    {
        let placed = self.ask_for(caller, op)?;
        let outcome = outcome_of(wanted, &placed.1.reply);
        caller.entries.push(placed)?;
        Ok(Some(outcome))
    }

    // Loads the policy of this label.
    pub(crate) fn load_policy<P: MountPort>(
        &self,
        caller: &mut Caller<P>,
        label: &Label,
    ) -> Result<LoadedPolicy, Stop>
        requires ready { MayAsk P.who P.calls_left 1 self.now.turn caller.old }
        ensures { WorkedPart P.after_calls P.who P.calls_left caller.old caller.new 1
            (loading_policy self.now.turn.caller self.now.turn.uid label.now) result }
    {
        let name = record_name(self.alloc, &Record::Policy(*label))?;
        let placed = self.ask_for(caller, Op::MetaLoad { name })?;
        let loaded = loaded_policy(self.alloc, label, &placed.1.reply);
        caller.entries.push(placed)?;
        loaded
    }
}
