//! A caller of a script that is given its replies one by one.

ghost use Rattle.std.specs.Prelude.{◌≡◌, [], ◌∷◌, ◌++◌, Some, IfOk, OnOk, IsFalse, ℕ, option_copied};
ghost use Rattle.std.specs.Prelude.{slice_get};
ghost use Rattle.std.specs.Option.{option_map};
ghost use Rattle.call_history.specs.Entries.{entry};
ghost use Rattle.mount_model.specs.declared.call.Call.{Call};
ghost use Rattle.mount_model.specs.Port.{PlacedCalls};
ghost use Rattle.fsc_session.specs.Asking.{AsksRightly};
ghost use Rattle.next_calls.specs.Callers.{IsNearer, WaitingFits};
ghost use Rattle.next_calls.specs.EntriesSoFar.{Awaits, GoesOn, IsCallerAfter};

use crate::listing::retain_last_listing;
use crate::next::{Next, discard, next_call};
use argon_kdf::Stretch;
use fsc_commands::{EntryList, Turn};
use fsc_session::{NoteList, note};
use mount_model::{Call, Reply};
use reply_text::Note;
use script_lang::Section;
use std::alloc::{AllocError, Global};
use std::marker::Model;
use std::mem;

/// A caller of a script that is given its replies one by one, with the call that it makes next. In
/// clauses it is a `CallerView`; `Awaits seed caller placed` defines which entries it has had so far.
///
/// Once a method has returned an error, the caller can't be used any more: no contract says which entries
/// it has had.
#[derive(Drop)]
pub struct Caller<'a> {
    caller: u32,
    section: &'a Section,
    next: usize,
    // The last of the entries with names, if there is one, before the command that is under way.
    listing: EntryList,
    // Of the command that is under way, the first one last.
    replies: Vec<Reply>,
    notes: NoteList,
    waiting: Option<Call>,
}

impl<'a> Model for Caller<'a> {
    ghost use Rattle.std.specs.Prelude.{◌≤◌, length, reverse};
    ghost use Rattle.fsc_commands.specs.Steps.{names_in};
    ghost use Rattle.fsc_session.specs.Asking.{AsksRightly};
    ghost use Rattle.next_calls.specs.Callers.{CallerView, WaitingFits, caller_view};

    ghost Value = { CallerView };

    ghost view = { λ c. caller_view c.caller c.section.now c.next (names_in c.listing)
        (reverse c.replies.items) c.notes c.waiting };

    ghost invariant = { λ c. AsksRightly c.section.now × (c.next ≤ length c.section.now.commands)
        × WaitingFits c.waiting };
}

impl<'a> Caller<'a> {
    /// Returns the caller of this number, before its first entry. If its first calls need stretched
    /// passphrases, `stretches` stretches them. The only error is out of memory.
    pub fn new<S: Stretch>(
        alloc: Global,
        stretches: &S,
        seed: &[u8; 32],
        number: u32,
        section: &'a Section,
    ) -> Result<Caller<'a>, AllocError>
        requires ready { S.ready stretches.now }
        requires asked { AsksRightly section.now }
        ensures caller { IfOk result (λ caller. caller.caller ≡ number) }
        ensures section { IfOk result (λ caller. caller.section ≡ section.now) }
        ensures awaits { IfOk result (λ caller. Awaits seed.now caller []) }
    {
        let mut caller = Caller {
            caller: number,
            section,
            next: 0,
            listing: EntryList::new(alloc),
            replies: Vec::new(alloc),
            notes: NoteList::new(alloc),
            waiting: None,
        };
        caller.go_on(alloc, stretches, seed)?;
        Ok(caller)
    }

    /// Returns the call that it makes next, which a mount may be asked, or `None` if all its commands
    /// have ended.
    pub fn waiting(&self) -> Option<&Call>
        ensures waiting { option_copied result ≡ self.now.waiting }
        ensures fits { WaitingFits self.now.waiting }
    {
        self.waiting.as_ref()
    }

    /// Takes the reply to the call that it waits for, and continues to its next call. The only error is
    /// out of memory.
    pub fn take<S: Stretch>(
        &mut self,
        alloc: Global,
        stretches: &S,
        seed: &[u8; 32],
        reply: Reply,
    ) -> Result<(), AllocError>
        requires ready { S.ready stretches.now }
        ensures caller { self.new.caller ≡ self.old.caller }
        ensures section { self.new.section ≡ self.old.section }
        ensures awaits { OnOk result ((placed : PlacedCalls) (place : ℕ) (call : Call)
            → Awaits seed.now self.old placed → self.old.waiting ≡ Some call
            → Awaits seed.now self.new (placed ++ (place, entry self.old.caller call reply) ∷ [])) }
    {
        self.replies.insert(0, reply)?;
        self.go_on(alloc, stretches, seed)
    }

    /// Wipes what no log shows of the call that it waits for, and drops the caller.
    pub fn forget(self, alloc: Global) {
        leave(alloc, self.waiting);
    }

    /// Returns the caller's number.
    pub fn caller(&self) -> u32
        ensures { result ≡ self.now.caller }
    {
        self.caller
    }

    /// Returns the line of its command that is under way, or `None` if all have ended.
    pub fn line(&self) -> Option<u32>
        ensures { result
            ≡ option_map (λ command. command.line) (slice_get self.now.section.commands self.now.next) }
    {
        let commands = self.section.commands.as_slice();
        commands.get(self.next).map(|command| command.line)
    }

    /// Returns the notes of its commands that have ended, in order.
    pub fn notes(&self) -> &[Note]
        ensures { result.now ≡ self.now.notes }
    {
        self.notes.as_slice()
    }

    // Continues until it waits for a reply, or no command is left.
    fn go_on<S: Stretch>(
        &mut self,
        alloc: Global,
        stretches: &S,
        seed: &[u8; 32],
    ) -> Result<(), AllocError>
        requires ready { S.ready stretches.now }
        ensures caller { self.new.caller ≡ self.old.caller }
        ensures section { self.new.section ≡ self.old.section }
        ensures awaits { OnOk result ((placed : PlacedCalls) → IsCallerAfter seed.now self.old placed
            → Awaits seed.now self.new placed) }
    {
        'commands: while !self.step(alloc, stretches, seed)? {}
        Ok(())
    }

    // Runs the command that is under way on its replies. Returns true if it waits for a further reply, or
    // no command is left. Returns false if the command has ended, and the next one is under way.
    fn step<S: Stretch>(
        &mut self,
        alloc: Global,
        stretches: &S,
        seed: &[u8; 32],
    ) -> Result<bool, AllocError>
        requires ready { S.ready stretches.now }
        ensures caller { self.new.caller ≡ self.old.caller }
        ensures section { self.new.section ≡ self.old.section }
        ensures goes_on { IfOk result (λ waits. (placed : PlacedCalls)
            → IsCallerAfter seed.now self.old placed → GoesOn waits seed.now self.new placed) }
        ensures nearer { IfOk result (λ waits. IsFalse waits → IsNearer self.old self.new) }
    {
        let commands = self.section.commands.as_slice();
        if self.next == commands.len() {
            leave(alloc, mem::replace(&mut self.waiting, None));
            return Ok(true);
        }
        let command = &commands[self.next];
        let turn = Turn {
            caller: self.caller,
            uid: self.section.uid,
            number: self.next,
        };
        let next = next_call(
            alloc,
            stretches,
            seed,
            turn,
            &command.verb,
            &mut self.listing,
            &mut self.replies,
        )?;
        match next {
            Next::Call(call) => {
                leave(alloc, mem::replace(&mut self.waiting, Some(call)));
                Ok(true)
            }
            Next::Ended(outcome) => {
                retain_last_listing(alloc, &mut self.listing)?;
                note(&mut self.notes, self.caller, command, outcome)?;
                self.next += 1;
                Ok(false)
            }
        }
    }
}

// Wipes what no log shows of a call that was waited for, and drops it.
fn leave(alloc: Global, waiting: Option<Call>) {
    if let Some(call) = waiting {
        discard(alloc, call);
    }
}
