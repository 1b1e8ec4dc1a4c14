//! Runs a script's callers in threads of their own, on a machine that they share.

ghost use Rattle.std.specs.Prelude.{◌≡◌, ◌<◌, [], ◌++◌, length, IfOk};
ghost use Rattle.std.specs.Thread.{IsSync};
ghost use Rattle.script_lang.specs.Spelled.{IsSpelled};
ghost use Rattle.fsc_commands.specs.declared.TheConstants.{MAX_CALLS};
ghost use Rattle.script_runs.specs.Passes.{AreHalves, CanRun};
ghost use Rattle.script_runs.specs.Runs.{IsLawfulRun, IsLogOf};
ghost use Rattle.script_runs.specs.Threaded.{HaveRun};

use crate::output::RunOutput;
use crate::passes::{cut, end, max_calls_of_sections};
use crate::ranged_port::RangedPort;
use argon_kdf::Stretch;
use call_history::sort_by_place;
use fsc_commands::MAX_CALLS;
use fsc_outside::Gate;
use fsc_session::run_caller;
use mount_shared::{MountMachine, SharedPort};
use script_lang::{Script, Section};
use std::alloc::{AllocError, Global};
use std::sync::Wait;
use std::thread::{Threads, join};
use turn_lock::{Pass, Shared};

// Callers before their first calls: their pass, and a section for each of them.
#[derive(Drop)]
struct Callers<'a, M: MountMachine> {
    pass: Pass<M>,
    sections: &'a [Section],
}

/// Runs the script in threads. Returns what a log shows of the run, its entries in order of place. Each
/// caller runs its section in a thread of its own, each command between the gate's two calls, and waits for
/// its turn on the machine at each call. No call was made on the machine before. Returns when all threads
/// have ended.
///
/// The only error is out of memory, which is also returned if the history could have more than 2^40 places.
pub fn run_in_threads<
    R: Threads + Wait + Sync,
    G: Gate + Sync,
    S: Stretch + Sync,
    M: MountMachine + Send,
>(
    rt: &R,
    alloc: Global,
    script: &Script,
    seed: &[u8; 32],
    gate: &G,
    stretches: &S,
    machine: M,
) -> Result<RunOutput, AllocError>
    requires spelled { IsSpelled script.now }
    requires ready { S.ready stretches.now }
    requires reaches { M.reaches [] machine }
    ensures { IfOk result (λ told. IsLogOf (IsLawfulRun M.lawful) seed.now script.now
        told.entries.items told.notes.items) }
{
    let sections = script.as_slice();
    if sections.is_empty() {
        return Ok(run_no_caller(alloc, machine));
    }
    let Some(calls) = max_calls_of_sections(sections, MAX_CALLS) else {
        return Err(AllocError);
    };
    let (shared, pass) = Shared::start(alloc, machine, sections.len() as u32, calls)?;
    let callers = Callers { pass, sections };
    let (pass, mut told) = run_all(rt, alloc, &shared, gate, stretches, callers, seed)?;
    end(shared, pass);
    sort_by_place(&mut told.entries)?;
    Ok(told)
}

// Returns the result of a run without callers. Nothing is shared, and no thread starts.
fn run_no_caller<M: MountMachine>(alloc: Global, machine: M) -> RunOutput
    requires { M.reaches [] machine }
    ensures none { (result.entries.items ≡ []) × (result.notes.items ≡ []) }
    ensures lawful { M.lawful [] }
{
    RunOutput::nothing(alloc)
}

// Runs the section of each of the callers in a thread of its own. Returns when all have ended.
fn run_all<R: Threads + Wait + Sync, G: Gate + Sync, S: Stretch + Sync, M: MountMachine + Send>(
    rt: &R,
    alloc: Global,
    shared: &Shared<M>,
    gate: &G,
    stretches: &S,
    callers: Callers<M>,
    seed: &[u8; 32],
) -> Result<(Pass<M>, RunOutput), AllocError>
    requires ready { S.ready stretches.now }
    requires can_run { CanRun MAX_CALLS shared.now callers.pass callers.sections.now }
    ensures { IfOk result (λ ran. HaveRun seed.now callers.entry.pass callers.entry.sections.now ran.0
        ran.1.entries.items ran.1.notes.items) }
{
    if callers.sections.len() == 1 {
        return run_one(rt, alloc, shared, gate, stretches, callers, seed);
    }
    let (lower, upper) = halve(shared, callers)?;
    let (one, two) = join(
        rt,
        || -> Result<(Pass<M>, RunOutput), AllocError>
            requires { IsSync R.row × IsSync G.row × IsSync S.row × S.ready stretches.now
                × CanRun MAX_CALLS shared.now lower.pass lower.sections.now }
            ensures { IfOk result (λ ran. HaveRun seed.entry.now lower.entry.pass lower.entry.sections.now
                ran.0 ran.1.entries.items ran.1.notes.items) }
        { run_all(rt, alloc, shared, gate, stretches, lower, seed) },
        || -> Result<(Pass<M>, RunOutput), AllocError>
            requires { IsSync R.row × IsSync G.row × IsSync S.row × S.ready stretches.now
                × CanRun MAX_CALLS shared.now upper.pass upper.sections.now }
            ensures { IfOk result (λ ran. HaveRun seed.entry.now upper.entry.pass upper.entry.sections.now
                ran.0 ran.1.entries.items ran.1.notes.items) }
        { run_all(rt, alloc, shared, gate, stretches, upper, seed) },
    );
    let (mut pass, mut told) = one?;
    let (other, more) = two?;
    shared.join(&mut pass, other);
    told.append(more)?;
    Ok((pass, told))
}

// Runs the section of the only caller.
fn run_one<R: Wait, G: Gate, S: Stretch, M: MountMachine>(
    rt: &R,
    alloc: Global,
    shared: &Shared<M>,
    gate: &G,
    stretches: &S,
    callers: Callers<M>,
    seed: &[u8; 32],
) -> Result<(Pass<M>, RunOutput), AllocError>
    requires ready { S.ready stretches.now }
    requires can_run { CanRun MAX_CALLS shared.now callers.pass callers.sections.now }
    requires one { length callers.sections.now ≡ 1 }
    ensures { IfOk result (λ ran. HaveRun seed.now callers.entry.pass callers.entry.sections.now ran.0
        ran.1.entries.items ran.1.notes.items) }
{
    let Callers { pass, sections } = callers;
    let port = SharedPort::new(rt, shared, pass);
    let mut port = RangedPort::over(port);
    let ran = run_caller(alloc, &mut port, gate, stretches, &sections[0], seed)?;
    let pass = port.back().back();
    // This shows that its own entries are its caller's.
    let _caller = pass.who();
    Ok((pass, RunOutput::of_caller(ran)))
}

// Cuts callers in two: the first half retain the pass, and the others get one of their own.
fn halve<'a, M: MountMachine>(
    shared: &Shared<M>,
    callers: Callers<'a, M>,
) -> Result<(Callers<'a, M>, Callers<'a, M>), AllocError>
    requires can_run { CanRun MAX_CALLS shared.now callers.pass callers.sections.now }
    requires several { 1 < length callers.sections.now }
    ensures whole { IfOk result (λ halves. callers.entry.sections.now
        ≡ halves.0.sections.now ++ halves.1.sections.now) }
    ensures halves { IfOk result (λ halves. AreHalves MAX_CALLS shared.now callers.entry.pass
        halves.0.pass halves.1.pass halves.0.sections.now halves.1.sections.now) }
{
    let Callers { mut pass, sections } = callers;
    let (first, others) = sections.split_at(sections.len() / 2);
    let upper = cut(shared, &mut pass, first, others, MAX_CALLS)?;
    Ok((
        Callers {
            pass,
            sections: first,
        },
        Callers {
            pass: upper,
            sections: others,
        },
    ))
}
