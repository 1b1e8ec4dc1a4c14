//! The two mounts, while callers share them.

ghost use Rattle.std.specs.Prelude.{◌<◌, [], length, IfOk};
ghost use Rattle.script_lang.specs.Spelled.{IsSpelled};
ghost use Rattle.linked_threads.specs.Threaded.{AreFirst, CanRunOnBoth, both};

use fsc_commands::MAX_CALLS;
use linked_turns::Mounts;
use mount_shared::MountMachine;
use script_lang::{Script, Section};
use script_runs::max_calls_of_sections;
use std::alloc::{AllocError, Global};
use turn_lock::{Pass, Shared};

// The machines of both mounts, each with a turn of its own.
#[derive(Drop)]
pub(crate) struct SharedMounts<M: MountMachine, N: MountMachine> {
    pub(crate) even: Shared<M>,
    pub(crate) odd: Shared<N>,
}

// A pass to each of them, of the same callers.
#[derive(Drop)]
pub(crate) struct Passes<M: MountMachine, N: MountMachine> {
    pub(crate) even: Pass<M>,
    pub(crate) odd: Pass<N>,
}

// Callers before their first calls: their passes, and a section for each of them.
#[derive(Drop)]
pub(crate) struct Callers<'a, M: MountMachine, N: MountMachine> {
    pub(crate) passes: Passes<M, N>,
    pub(crate) sections: &'a [Section],
}

// Shares both mounts, each with a turn, for the callers of a script that has some. Returns them with the
// passes that have all numbers.
pub(crate) fn share<M: MountMachine, N: MountMachine>(
    alloc: Global,
    mounts: Mounts<M, N>,
    script: &Script,
) -> Result<(SharedMounts<M, N>, Passes<M, N>), AllocError>
    requires spelled { IsSpelled script.now }
    requires some { 0 < length script.now }
    requires reaches_even { M.reaches [] mounts.even }
    requires reaches_odd { N.reaches [] mounts.odd }
    ensures first { IfOk result (λ made.
        AreFirst (both made.0.even made.0.odd) (both made.1.even made.1.odd)) }
    ensures can_run { IfOk result (λ made. CanRunOnBoth (both made.0.even made.0.odd)
        (both made.1.even made.1.odd) script.now) }
{
    let sections = script.as_slice();
    let Some(calls) = max_calls_of_sections(sections, MAX_CALLS) else {
        return Err(AllocError);
    };
    let Some(odd_calls) = max_calls_of_sections(sections, 2 * MAX_CALLS) else {
        return Err(AllocError);
    };
    let numbers = sections.len() as u32;
    let Mounts { even, odd } = mounts;
    let (even, even_pass) = Shared::start(alloc, even, numbers, calls)?;
    let (odd, odd_pass) = Shared::start(alloc, odd, numbers, odd_calls)?;
    let passes = Passes {
        even: even_pass,
        odd: odd_pass,
    };
    Ok((SharedMounts { even, odd }, passes))
}
