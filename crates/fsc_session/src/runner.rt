//! A caller that makes its section's calls, command by command.

ghost use Rattle.std.specs.Prelude.{◌≡◌, ◌≤◌, [], ◌++◌, IfOk, OnOk, OnErr, IsErr, IsTrue, IsFalse};
ghost use Rattle.fsc_session.specs.Asking.{AsksRightly};
ghost use Rattle.fsc_session.specs.Running.{RunnerStep};
ghost use Rattle.fsc_session.specs.Runners.{RunnerView, runner_view, next_command};
ghost use Rattle.fsc_session.specs.Stopping.{next_steps};
ghost use Rattle.fsc_commands.specs.MadeCalls.{Begun};
ghost use Rattle.fsc_session.specs.Session.{notes_of_command};
ghost use Rattle.fsc_commands.specs.declared.TheConstants.{MAX_CALLS};

use crate::NoteList;
use crate::stack::scrub_stack;
use argon_kdf::Stretch;
use fsc_commands::{EntryList, MAX_CALLS, Turn, run_command};
use mount_model::MountPort;
use reply_text::{Note, Outcome};
use script_lang::{Command, Section};
use std::alloc::{AllocError, Global};
use std::marker::Model;

/// The result of a caller's section: what a log shows of its calls, with the replies, and the notes of
/// its session commands.
#[derive(Drop)]
pub struct Ran {
    pub entries: EntryList,
    pub notes: NoteList,
}

/// A caller between two commands of its section, with what a log shows of its calls so far, and the
/// replies. In clauses it is a `RunnerView`.
#[derive(Drop)]
pub struct Runner<'a> {
    caller: u32,
    section: &'a Section,
    next: usize,
    entries: EntryList,
    notes: NoteList,
    // True once a step is out of memory. It leaves no state between two commands, so no other step may
    // follow.
    spent: bool,
}

impl<'a> Model for Runner<'a> {
    ghost use Rattle.std.specs.Prelude.{◌≤◌, length};
    ghost use Rattle.fsc_session.specs.Runners.{RunnerView, runner_view, spent_if};

    ghost Value = { RunnerView };

    ghost view = { λ runner. spent_if runner.spent (runner_view runner.caller runner.section.now runner.next
        runner.entries runner.notes) };

    ghost invariant = { λ runner. runner.next ≤ length runner.section.now.commands };
}

impl<'a> Runner<'a> {
    /// Returns the caller of this number, before its first command. It takes no memory.
    pub fn new(alloc: Global, caller: u32, section: &'a Section) -> Runner<'a>
        ensures { result ≡ runner_view caller section.now 0 [] [] }
    {
        Runner {
            caller,
            section,
            next: 0,
            entries: EntryList::new(alloc),
            notes: NoteList::new(alloc),
            spent: false,
        }
    }

    /// Runs the next command on the caller's port, with `stretches` for its passphrases, in at most four
    /// calls. Returns false if no command is left. The one error is out of memory. Then the calls made
    /// are those with which the command's steps begin, and the runner is spent, with the same caller and
    /// section. A step of a spent runner returns that error, and makes no call. After each command
    /// `scrub_stack` wipes what it left on the stack.
    pub fn step<P: MountPort, S: Stretch>(
        &mut self,
        alloc: Global,
        port: &mut P,
        stretches: &S,
        seed: &[u8; 32],
    ) -> Result<bool, AllocError>
        requires ready { S.ready stretches.now }
        requires caller { self.old.caller ≡ P.who port.old }
        requires left { MAX_CALLS ≤ P.calls_left port.old }
        requires asked { AsksRightly self.old.section }
        ensures stepped { IfOk result (λ more. RunnerStep (P.after_calls port.old) port.new
            (P.calls_left port.new) (P.calls_left port.old) seed.now more self.old self.new) }
        ensures caller { P.who port.new ≡ P.who port.old }
        ensures own { (self.new.caller ≡ self.old.caller) × (self.new.section ≡ self.old.section) }
        ensures unspent { OnOk result (IsFalse self.new.spent) }
        ensures failed { OnErr result (Begun (P.after_calls port.old) port.new MAX_CALLS
            (next_steps seed.now self.old)) }
        ensures spent { OnErr result (IsTrue self.new.spent) }
        ensures stays { IsTrue self.old.spent
            → IsErr result × (port.new ≡ port.old) × (self.new ≡ self.old) }
    {
        if self.spent {
            return Err(AllocError);
        }
        let commands = self.section.commands.as_slice();
        if self.next == commands.len() {
            return Ok(false);
        }
        let turn = Turn {
            caller: self.caller,
            uid: self.section.uid,
            number: self.next,
        };
        let command = &commands[self.next];
        // The runner is spent until the command has ended and its note is stored.
        self.spent = true;
        let verb = &command.verb;
        let ran = run_command(alloc, port, stretches, seed, turn, verb, &mut self.entries);
        // Even a command that names no key derives nonces from the seed, and keys of the nodes on its
        // path.
        scrub_stack();
        let outcome = ran?;
        note(&mut self.notes, self.caller, command, outcome)?;
        self.next += 1;
        self.spent = false;
        Ok(true)
    }

    /// Returns the caller's number.
    pub fn caller(&self) -> u32
        ensures { result ≡ self.now.caller }
    {
        self.caller
    }

    /// Returns the number of the command that the next step runs; `None` if none is left.
    pub fn next_command(&self) -> Option<usize>
        ensures { result ≡ next_command self.now }
    {
        if self.next < self.section.commands.len() {
            Some(self.next)
        } else {
            None
        }
    }

    /// Returns what a log shows of its calls, with the replies, and the notes.
    pub fn ran(self) -> Ran
        ensures entries { result.entries ≡ self.entry.entries }
        ensures notes { result.notes ≡ self.entry.notes }
    {
        Ran {
            entries: self.entries,
            notes: self.notes,
        }
    }
}

/// Appends the note of a command, if it has one. The one error is out of memory: then the notes are as
/// before.
pub fn note(
    notes: &mut NoteList,
    caller: u32,
    command: &Command,
    outcome: Option<Outcome>,
) -> Result<(), AllocError>
    ensures noted { OnOk result (notes.new ≡ notes.old ++ notes_of_command caller command.now outcome) }
    ensures kept { OnErr result (notes.new ≡ notes.old) }
{
    if let Some(outcome) = outcome {
        notes.push(Note {
            caller,
            line: command.line,
            outcome,
        })?;
    }
    Ok(())
}
