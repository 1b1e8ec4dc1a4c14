//! Runs a script's callers in threads of their own, on two mounts that they share.

ghost use Rattle.std.specs.Prelude.{◌≡◌, [], IfOk};
ghost use Rattle.std.specs.Thread.{IsSync};
ghost use Rattle.script_lang.specs.Spelled.{IsSpelled};
ghost use Rattle.linked_threads.specs.LinkedThreads.{IsLinkedLogOfCalls};
ghost use Rattle.linked_threads.specs.Threaded.{CanRunOnBoth, HaveRun, both};

use crate::cut::halve;
use crate::mounts::{Callers, Passes, SharedMounts, share};
use crate::one::run_one;
use crate::output::{append, nothing, put_in_order};
use argon_kdf::Stretch;
use fsc_outside::Gate;
use linked_turns::{LinkedOutput, Mounts};
use mount_shared::MountMachine;
use script_lang::Script;
use script_runs::end;
use std::alloc::{AllocError, Global};
use std::sync::Wait;
use std::thread::{Threads, join};

/// Runs the script in threads on two mounts. Each caller runs its section in a thread of its own, each
/// command between the gate's two calls. Callers with an even number work on mount 0. The others work on
/// mount 1, and their calls for protectors that are links there are made on mount 0. No call may have
/// been made on either machine; each is shared with a turn of its own.
///
/// Returns when all threads have ended, with the shown entries of each mount in order of place, and the
/// notes. The one error is out of memory.
pub fn run_linked_in_threads<
    R: Threads + Wait + Sync,
    G: Gate + Sync,
    S: Stretch + Sync,
    M: MountMachine + Send,
    N: MountMachine + Send,
>(
    rt: &R,
    alloc: Global,
    script: &Script,
    seed: &[u8; 32],
    gate: &G,
    stretches: &S,
    mounts: Mounts<M, N>,
) -> Result<LinkedOutput, AllocError>
    requires spelled { IsSpelled script.now }
    requires ready { S.ready stretches.now }
    requires reaches_even { M.reaches [] mounts.even }
    requires reaches_odd { N.reaches [] mounts.odd }
    ensures { IfOk result (λ told. IsLinkedLogOfCalls M.lawful N.lawful seed.now script.now
        told.even.items told.odd.items told.notes.items) }
{
    let sections = script.as_slice();
    if sections.is_empty() {
        return Ok(run_no_caller(alloc, mounts));
    }
    let (shared, passes) = share(alloc, mounts, script)?;
    let callers = Callers { passes, sections };
    let (passes, mut told) = run_all(rt, alloc, &shared, gate, stretches, callers, seed)?;
    end(shared.even, passes.even);
    end(shared.odd, passes.odd);
    put_in_order(&mut told)?;
    Ok(told)
}

// A run without callers: nothing is shared, and no thread starts.
fn run_no_caller<M: MountMachine, N: MountMachine>(
    alloc: Global,
    mounts: Mounts<M, N>,
) -> LinkedOutput
    requires even { M.reaches [] mounts.even }
    requires odd { N.reaches [] mounts.odd }
    ensures none { (result.even.items ≡ []) × (result.odd.items ≡ []) × (result.notes.items ≡ []) }
    ensures lawful_even { M.lawful [] }
    ensures lawful_odd { N.lawful [] }
{
    nothing(alloc)
}

// Runs the section of each of the callers in a thread of its own. Returns when all have ended.
fn run_all<
    R: Threads + Wait + Sync,
    G: Gate + Sync,
    S: Stretch + Sync,
    M: MountMachine + Send,
    N: MountMachine + Send,
>(
    rt: &R,
    alloc: Global,
    shared: &SharedMounts<M, N>,
    gate: &G,
    stretches: &S,
    callers: Callers<M, N>,
    seed: &[u8; 32],
) -> Result<(Passes<M, N>, LinkedOutput), AllocError>
    requires ready { S.ready stretches.now }
    requires can_run { CanRunOnBoth (both shared.now.even shared.now.odd)
        (both callers.passes.even callers.passes.odd) callers.sections.now }
    ensures { IfOk result (λ ran. HaveRun seed.now
        (both callers.entry.passes.even callers.entry.passes.odd) callers.entry.sections.now
        (both ran.0.even ran.0.odd) ran.1) }
{
    if callers.sections.len() == 1 {
        return run_one(rt, alloc, shared, gate, stretches, callers, seed);
    }
    let (lower, upper) = halve(shared, callers)?;
    let (one, two) = join(
        rt,
        || -> Result<(Passes<M, N>, LinkedOutput), AllocError>
            requires { IsSync R.row × IsSync G.row × IsSync S.row × S.ready stretches.now
                × CanRunOnBoth (both shared.now.even shared.now.odd)
                (both lower.passes.even lower.passes.odd) lower.sections.now }
            ensures { IfOk result (λ ran. HaveRun seed.entry.now
                (both lower.entry.passes.even lower.entry.passes.odd) lower.entry.sections.now
                (both ran.0.even ran.0.odd) ran.1) }
        { run_all(rt, alloc, shared, gate, stretches, lower, seed) },
        || -> Result<(Passes<M, N>, LinkedOutput), AllocError>
            requires { IsSync R.row × IsSync G.row × IsSync S.row × S.ready stretches.now
                × CanRunOnBoth (both shared.now.even shared.now.odd)
                (both upper.passes.even upper.passes.odd) upper.sections.now }
            ensures { IfOk result (λ ran. HaveRun seed.entry.now
                (both upper.entry.passes.even upper.entry.passes.odd) upper.entry.sections.now
                (both ran.0.even ran.0.odd) ran.1) }
        { run_all(rt, alloc, shared, gate, stretches, upper, seed) },
    );
    let (mut passes, mut told) = one?;
    let (others, more) = two?;
    shared.even.join(&mut passes.even, others.even);
    shared.odd.join(&mut passes.odd, others.odd);
    append(&mut told, more)?;
    Ok((passes, told))
}
