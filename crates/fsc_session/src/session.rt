//! A caller's whole section, run on its port.

ghost use Rattle.std.specs.Prelude.{◌≤◌, ◌*◌, length, IfOk, OnErr};
ghost use Rattle.fsc_session.specs.Asking.{AsksRightly};
ghost use Rattle.fsc_session.specs.PortRuns.{SectionRan};
ghost use Rattle.fsc_session.specs.Stopping.{SectionBeforeStop};
ghost use Rattle.fsc_commands.specs.declared.TheConstants.{MAX_CALLS};

use crate::runner::{Ran, Runner};
use crate::stack::scrub_stack;
use argon_kdf::Stretch;
use fsc_outside::Gate;
use mount_model::MountPort;
use script_lang::Section;
use std::alloc::{AllocError, Global};

/// Runs the section's commands one after another on the caller's port, with `stretches` for their
/// passphrases. The port must have four calls left for each command. The gate is called before each
/// command, and after each that was run: not after a command that was out of memory. After the last
/// command `scrub_stack` wipes what they left on the stack. The one error is out of memory. Then the
/// calls are those of the commands that were run, and after them those with which the next command's
/// steps begin.
pub fn run_caller<P: MountPort, G: Gate, S: Stretch>(
    alloc: Global,
    port: &mut P,
    gate: &G,
    stretches: &S,
    section: &Section,
    seed: &[u8; 32],
) -> Result<Ran, AllocError>
    requires ready { S.ready stretches.now }
    requires left { MAX_CALLS * length section.now.commands ≤ P.calls_left port.old }
    requires asked { AsksRightly section.now }
    ensures ran { IfOk result (λ ran. SectionRan (P.after_calls port.old) port.new (P.calls_left port.new)
        (P.calls_left port.old) seed.now (P.who port.old) section.now ran.entries ran.notes) }
    ensures failed { OnErr result
        (SectionBeforeStop (P.after_calls port.old) port.new seed.now (P.who port.old)
        section.now) }
{
    let caller = port.caller();
    let mut runner = Runner::new(alloc, caller, section);
    'commands: for number in 0..section.commands.len() {
        gate.before(caller, number as u64);
        runner.step(alloc, port, stretches, seed)?;
        gate.after(caller, number as u64);
    }
    scrub_stack();
    Ok(runner.ran())
}
