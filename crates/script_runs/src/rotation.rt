//! Runs a script on a machine that has no other callers: the callers take turns, command by command.

ghost use Rattle.std.specs.Prelude.{◌≡◌, ◌≤◌, [], length, map, IfOk, OnOk};
ghost use Rattle.script_lang.specs.Spelled.{IsSpelled};
ghost use Rattle.script_lang.specs.declared.limits.TheConstants.{MAX_CALLERS};
ghost use Rattle.fsc_commands.specs.Steps.Steps.{Done};
ghost use Rattle.fsc_session.specs.Asking.{AsksRightly};
ghost use Rattle.fsc_session.specs.Runners.{state_of};
ghost use Rattle.fsc_session.specs.Rotation.{longest, rounds_steps};
ghost use Rattle.script_runs.specs.Callers.{fresh_runners, noted_by, sections_of, logged_calls_of};
ghost use Rattle.script_runs.specs.Rotating.{Rotating, TurnOf};
ghost use Rattle.script_runs.specs.Runs.{IsRunBefore, IsSerialRun, IsLogOf};
ghost use Rattle.script_runs.specs.MountPlaces.{at};

use crate::output::RunOutput;
use crate::ranged_port::RangedPort;
use argon_kdf::Stretch;
use call_history::{MAX_PLACES, sort_by_place};
use fsc_commands::MAX_CALLS;
use fsc_outside::Gate;
use fsc_session::{Runner, scrub_stack};
use mount_shared::{MountMachine, SerialMount};
use script_lang::{Script, Section};
use std::alloc::{AllocError, Global};

/// Runs the script in rotation. Returns what a log shows of the run, its entries in order of place. Command
/// 0 of each caller that has one runs, then command 1, and so on, each between the gate's two calls. No
/// call was made on the machine before.
///
/// The only error is out of memory, which is also returned before the history could have more than 2^40
/// places.
pub fn run_in_rotation<G: Gate, S: Stretch, M: MountMachine>(
    alloc: Global,
    script: &Script,
    seed: &[u8; 32],
    gate: &G,
    stretches: &S,
    machine: M,
) -> Result<RunOutput, AllocError>
    requires spelled { IsSpelled script.now }
    requires ready { S.ready stretches.now }
    requires reaches { M.reaches [] machine }
    ensures { IfOk result (λ told. IsLogOf (IsSerialRun M.lawful) seed.now script.now
        told.entries.items told.notes.items) }
{
    let (told, _machine) = rotate(alloc, script, seed, gate, stretches, machine)?;
    Ok(told)
}

/// The same, and returns the machine as the run leaves it.
pub fn rotate<G: Gate, S: Stretch, M: MountMachine>(
    alloc: Global,
    script: &Script,
    seed: &[u8; 32],
    gate: &G,
    stretches: &S,
    machine: M,
) -> Result<(RunOutput, M), AllocError>
    requires spelled { IsSpelled script.now }
    requires ready { S.ready stretches.now }
    requires reaches { M.reaches [] machine }
    ensures { IfOk result (λ r. IsLogOf
        (IsRunBefore (λ history. M.reaches history r.1) (IsSerialRun M.lawful))
        seed.now script.now r.0.entries.items r.0.notes.items) }
{
    let sections = script.as_slice();
    let mut runners = fresh_runners(alloc, sections)?;
    let mount = run_rounds(
        alloc,
        SerialMount::new(machine),
        runners.as_mut_slice(),
        longest(sections),
        seed,
        gate,
        stretches,
    )?;
    scrub_stack();
    let mut told = output_of_runners(alloc, runners)?;
    sort_by_place(&mut told.entries)?;
    Ok((told, mount.machine))
}

/// Returns the number of commands of the longest section.
pub fn longest(sections: &[Section]) -> usize
    ensures { result ≡ longest sections.now }
{
    sections
        .iter()
        .fold(0, |most, section| most.max(section.commands.len()))
}

// Returns a runner for each section, before its first command.
fn fresh_runners(alloc: Global, sections: &[Section]) -> Result<Vec<Runner<'_>>, AllocError>
    requires { length sections.now ≤ MAX_CALLERS }
    ensures { IfOk result (λ runners. runners.items ≡ fresh_runners 0 sections.now) }
{
    let mut runners = Vec::new(alloc);
    'sections: for (caller, section) in sections.iter().enumerate() {
        runners.push(Runner::new(alloc, caller as u32, section))?;
    }
    Ok(runners)
}

// The callers take `rounds` rounds of turns.
fn run_rounds<G: Gate, S: Stretch, M: MountMachine>(
    alloc: Global,
    mount: SerialMount<M>,
    runners: &mut [Runner],
    rounds: usize,
    seed: &[u8; 32],
    gate: &G,
    stretches: &S,
) -> Result<SerialMount<M>, AllocError>
    requires ready { S.ready stretches.now }
    requires begins { Rotating M.reaches seed.now (sections_of runners.old)
        (rounds_steps seed.now rounds 0 (map state_of runners.old))
        (rounds_steps seed.now rounds 0 (map state_of runners.old))
        (λ j. 0) runners.old (at mount.machine mount.places) }
    ensures turned { IfOk result (λ after. Rotating M.reaches seed.now (sections_of runners.old)
        (rounds_steps seed.now rounds 0 (map state_of runners.old))
        (Done (map state_of runners.new))
        (λ j. rounds) runners.new (at after.machine after.places)) }
    ensures same { OnOk result (length runners.new ≡ length runners.old) }
{
    let mut mount = mount;
    'rounds: for number in 0..rounds {
        'turns: for i in 0..runners.len() {
            mount = take_turn(alloc, mount, &mut runners[i], seed, gate, stretches)?;
        }
    }
    Ok(mount)
}

// Runs the caller's next command, if it has one, on a port of its own and between the gate's two calls.
fn take_turn<G: Gate, S: Stretch, M: MountMachine>(
    alloc: Global,
    mount: SerialMount<M>,
    runner: &mut Runner,
    seed: &[u8; 32],
    gate: &G,
    stretches: &S,
) -> Result<SerialMount<M>, AllocError>
    requires ready { S.ready stretches.now }
    requires asked { AsksRightly runner.old.section }
    ensures { IfOk result (λ after. TurnOf M.reaches seed.now (at mount.machine mount.places) runner.old
        (at after.machine after.places) runner.new) }
{
    let number = runner.caller();
    let command = runner.next_command();
    if let Some(command) = command {
        gate.before(number, command as u64);
    }
    let after = step(alloc, mount, runner, seed, stretches)?;
    if let Some(command) = command {
        gate.after(number, command as u64);
    }
    Ok(after)
}

// Runs the caller's next command, on a port of its own.
fn step<S: Stretch, M: MountMachine>(
    alloc: Global,
    mount: SerialMount<M>,
    runner: &mut Runner,
    seed: &[u8; 32],
    stretches: &S,
) -> Result<SerialMount<M>, AllocError>
    requires ready { S.ready stretches.now }
    requires asked { AsksRightly runner.old.section }
    ensures { IfOk result (λ after. TurnOf M.reaches seed.now (at mount.machine mount.places) runner.old
        (at after.machine after.places) runner.new) }
{
    if mount.places > MAX_PLACES - MAX_CALLS {
        return Err(AllocError);
    }
    let port = mount.port(runner.caller(), MAX_CALLS);
    let mut port = RangedPort::over(port);
    runner.step(alloc, &mut port, stretches, seed)?;
    Ok(port.back().back())
}

// Returns what all runners received, runner after runner.
fn output_of_runners(alloc: Global, runners: Vec<Runner>) -> Result<RunOutput, AllocError>
    ensures entries { IfOk result (λ told. told.entries.items
        ≡ logged_calls_of (λ runner. runner.entries) runners.entry.items) }
    ensures notes { IfOk result (λ told. told.notes.items ≡ noted_by runners.entry.items) }
{
    let mut told = RunOutput::nothing(alloc);
    'runners: for runner in runners {
        told.append(RunOutput::of_caller(runner.ran()))?;
    }
    Ok(told)
}
