//! Runs a script on two mounts that have no other callers: the callers take turns, command by command.

ghost use Rattle.std.specs.Prelude.{◌≡◌, [], length, IfOk, OnOk};
ghost use Rattle.script_lang.specs.Spelled.{IsSpelled};
ghost use Rattle.fsc_commands.specs.Steps.Steps.{Done};
ghost use Rattle.fsc_session.specs.Rotation.{rounds_steps};
ghost use Rattle.linked_turns.specs.LinkedRuns.{IsLinkedLogOf};
ghost use Rattle.script_runs.specs.MountPlaces.{at};
ghost use Rattle.linked_turns.specs.Turns.{Rotating, sections_of, states_of};

use crate::mounts::{Mounts, SerialMounts};
use crate::output::{LinkedOutput, output_of_runners};
use crate::runners::{LinkedRunner, fresh_runners};
use crate::turn::take_turn;
use argon_kdf::Stretch;
use call_history::sort_by_place;
use fsc_outside::Gate;
use fsc_session::scrub_stack;
use mount_shared::{MountMachine, SerialMount};
use script_lang::Script;
use script_runs::longest;
use std::alloc::{AllocError, Global};

/// Runs the script in rotation on two mounts. Returns what the logs show, the entries of each mount in
/// order of place. Command 0 of each caller that has one runs, then command 1, and so on, each between the
/// gate's two calls. Callers with an even number work on mount 0. The others work on mount 1; their calls
/// for protectors that are links there go to mount 0. No call was made on either machine before.
///
/// The only error is out of memory, which is also returned before a history could have more than 2^40
/// places.
pub fn run_linked_in_rotation<G: Gate, S: Stretch, M: MountMachine, N: MountMachine>(
    alloc: Global,
    script: &Script,
    seed: &[u8; 32],
    gate: &G,
    stretches: &S,
    mounts: Mounts<M, N>,
) -> Result<LinkedOutput, AllocError>
    requires spelled { IsSpelled script.now }
    requires ready { S.ready stretches.now }
    requires reaches_even { M.reaches [] mounts.even }
    requires reaches_odd { N.reaches [] mounts.odd }
    ensures { IfOk result (λ told. IsLinkedLogOf M.lawful N.lawful seed.now script.now
        told.even.items told.odd.items told.notes.items) }
{
    let sections = script.as_slice();
    let mut runners = fresh_runners(alloc, sections)?;
    let mounts = SerialMounts {
        even: SerialMount::new(mounts.even),
        odd: SerialMount::new(mounts.odd),
    };
    let _mounts = run_rounds(
        alloc,
        mounts,
        runners.as_mut_slice(),
        longest(sections),
        seed,
        gate,
        stretches,
    )?;
    scrub_stack();
    let mut told = output_of_runners(alloc, runners)?;
    sort_by_place(&mut told.even)?;
    sort_by_place(&mut told.odd)?;
    Ok(told)
}

// The callers take `rounds` rounds of turns.
fn run_rounds<G: Gate, S: Stretch, M: MountMachine, N: MountMachine>(
    alloc: Global,
    mounts: SerialMounts<M, N>,
    runners: &mut [LinkedRunner],
    rounds: usize,
    seed: &[u8; 32],
    gate: &G,
    stretches: &S,
) -> Result<SerialMounts<M, N>, AllocError>
    requires ready { S.ready stretches.now }
    requires begins { Rotating M.reaches N.reaches seed.now (sections_of runners.old)
        (rounds_steps seed.now rounds 0 (states_of runners.old))
        (rounds_steps seed.now rounds 0 (states_of runners.old))
        (λ j. 0) runners.old
        (at mounts.even.machine mounts.even.places) (at mounts.odd.machine mounts.odd.places) }
    ensures turned { IfOk result (λ after. Rotating M.reaches N.reaches seed.now (sections_of runners.old)
        (rounds_steps seed.now rounds 0 (states_of runners.old))
        (Done (states_of runners.new))
        (λ j. rounds) runners.new
        (at after.even.machine after.even.places) (at after.odd.machine after.odd.places)) }
    ensures same { OnOk result (length runners.new ≡ length runners.old) }
{
    let mut mounts = mounts;
    'rounds: for number in 0..rounds {
        'turns: for i in 0..runners.len() {
            mounts = take_turn(alloc, mounts, &mut runners[i], seed, gate, stretches)?;
        }
    }
    Ok(mounts)
}
