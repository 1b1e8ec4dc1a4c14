//! One caller's section, on the mount of its number.

ghost use Rattle.std.specs.Prelude.{◌≡◌, true, false, [], length, IfOk};
ghost use Rattle.fsc_commands.specs.declared.TheConstants.{MAX_CALLS};
ghost use Rattle.mount_links.specs.LinkCalls.{link_view};
ghost use Rattle.mount_links.specs.ShownParts.{logged_load};
ghost use Rattle.mount_links.specs.Linked.{far_parts, own_parts};
ghost use Rattle.script_runs.specs.Passes.{max_calls_of_sections};
ghost use Rattle.linked_turns.specs.Parts.{is_even};
ghost use Rattle.linked_threads.specs.Threaded.{CanRunOnBoth, HaveRun, both};

use crate::mounts::{Callers, Passes, SharedMounts};
use argon_kdf::Stretch;
use fsc_commands::MAX_CALLS;
use fsc_outside::Gate;
use fsc_session::{Ran, run_caller};
use linked_turns::LinkedOutput;
use mount_links::{LinkPort, LinkStep, split};
use mount_shared::{MountMachine, SharedPort};
use script_lang::Section;
use script_runs::{RangedPort, max_calls_of_sections};
use std::alloc::{AllocError, Global};
use std::sync::Wait;

// The port of a caller with an odd number, each of whose calls on either mount is in range.
type SharedLinks<'a, M, N, R> = LinkPort<
    RangedPort<SharedPort<'a, N, R>>,
    RangedPort<SharedPort<'a, M, R>>,
>;

// Runs the section of the one caller.
pub(crate) fn run_one<R: Wait, G: Gate, S: Stretch, M: MountMachine, N: MountMachine>(
    rt: &R,
    alloc: Global,
    shared: &SharedMounts<M, N>,
    gate: &G,
    stretches: &S,
    callers: Callers<M, N>,
    seed: &[u8; 32],
) -> Result<(Passes<M, N>, LinkedOutput), AllocError>
    requires ready { S.ready stretches.now }
    requires can_run { CanRunOnBoth (both shared.now.even shared.now.odd)
        (both callers.passes.even callers.passes.odd) callers.sections.now }
    requires one { length callers.sections.now ≡ 1 }
    ensures { IfOk result (λ ran. HaveRun seed.now
        (both callers.entry.passes.even callers.entry.passes.odd) callers.entry.sections.now
        (both ran.0.even ran.0.odd) ran.1) }
{
    if callers.passes.even.who() % 2 == 0 {
        run_on_mount_0(rt, alloc, shared, gate, stretches, callers, seed)
    } else {
        run_on_both(rt, alloc, shared, gate, stretches, callers, seed)
    }
}

// Runs the section of a caller with an even number.
fn run_on_mount_0<R: Wait, G: Gate, S: Stretch, M: MountMachine, N: MountMachine>(
    rt: &R,
    alloc: Global,
    shared: &SharedMounts<M, N>,
    gate: &G,
    stretches: &S,
    callers: Callers<M, N>,
    seed: &[u8; 32],
) -> Result<(Passes<M, N>, LinkedOutput), AllocError>
    requires ready { S.ready stretches.now }
    requires can_run { CanRunOnBoth (both shared.now.even shared.now.odd)
        (both callers.passes.even callers.passes.odd) callers.sections.now }
    requires one { length callers.sections.now ≡ 1 }
    requires even { is_even callers.passes.even.who ≡ true }
    ensures { IfOk result (λ ran. HaveRun seed.now
        (both callers.entry.passes.even callers.entry.passes.odd) callers.entry.sections.now
        (both ran.0.even ran.0.odd) ran.1) }
{
    let Callers { passes, sections } = callers;
    let Passes { even, odd } = passes;
    let port = SharedPort::new(rt, &shared.even, even);
    let mut port = RangedPort::over(port);
    let ran = run_caller(alloc, &mut port, gate, stretches, &sections[0], seed)?;
    let even = port.back().back();
    // The clause `own` of `who` holds: its own entries are its caller's.
    let _caller = even.who();
    let told = LinkedOutput {
        even: ran.entries.into_vec(),
        odd: Vec::new(alloc),
        notes: ran.notes.into_vec(),
    };
    Ok((Passes { even, odd }, told))
}

// Runs the section of a caller with an odd number.
fn run_on_both<R: Wait, G: Gate, S: Stretch, M: MountMachine, N: MountMachine>(
    rt: &R,
    alloc: Global,
    shared: &SharedMounts<M, N>,
    gate: &G,
    stretches: &S,
    callers: Callers<M, N>,
    seed: &[u8; 32],
) -> Result<(Passes<M, N>, LinkedOutput), AllocError>
    requires ready { S.ready stretches.now }
    requires can_run { CanRunOnBoth (both shared.now.even shared.now.odd)
        (both callers.passes.even callers.passes.odd) callers.sections.now }
    requires one { length callers.sections.now ≡ 1 }
    requires odd { is_even callers.passes.even.who ≡ false }
    ensures { IfOk result (λ ran. HaveRun seed.now
        (both callers.entry.passes.even callers.entry.passes.odd) callers.entry.sections.now
        (both ran.0.even ran.0.odd) ran.1) }
{
    let Callers { passes, sections } = callers;
    let mut port = port_on_both(rt, alloc, shared, passes, sections)?;
    let ran = run_caller(alloc, &mut port, gate, stretches, &sections[0], seed)?;
    let (own, far, steps) = port.back();
    let odd = own.back().back();
    let even = far.back().back();
    // The clause `own` of `who` holds: their own entries are their caller's.
    let _on_mount_1 = odd.who();
    let _on_mount_0 = even.who();
    let told = output_on_both(alloc, ran, steps)?;
    Ok((Passes { even, odd }, told))
}

// The port of a caller with an odd number, for as many calls as its section may make. They are made on
// mount 1, and those for links there on mount 0, too.
fn port_on_both<'a, R: Wait, M: MountMachine, N: MountMachine>(
    rt: &'a R,
    alloc: Global,
    shared: &'a SharedMounts<M, N>,
    passes: Passes<M, N>,
    sections: &[Section],
) -> Result<SharedLinks<'a, M, N, R>, AllocError>
    requires { CanRunOnBoth (both shared.now.even shared.now.odd) (both passes.even passes.odd) sections.now }
    ensures { IfOk result (λ port. port
        ≡ link_view passes.odd passes.even (max_calls_of_sections MAX_CALLS sections.now) []) }
{
    let Some(calls) = max_calls_of_sections(sections, MAX_CALLS) else {
        return Err(AllocError);
    };
    let own = SharedPort::new(rt, &shared.odd, passes.odd);
    let far = SharedPort::new(rt, &shared.even, passes.even);
    LinkPort::new(alloc, RangedPort::over(own), RangedPort::over(far), calls)
}

// The result of a caller on both mounts, by the step of each of its calls.
fn output_on_both(alloc: Global, ran: Ran, steps: Vec<LinkStep>) -> Result<LinkedOutput, AllocError>
    ensures even { IfOk result (λ told. told.even.items ≡ far_parts steps.items ran.entries) }
    ensures odd { IfOk result (λ told. told.odd.items ≡ own_parts logged_load steps.items ran.entries) }
    ensures notes { IfOk result (λ told. told.notes.items ≡ ran.notes) }
{
    let shown = split(alloc, ran.entries, steps)?;
    Ok(LinkedOutput {
        even: shown.far.into_vec(),
        odd: shown.own.into_vec(),
        notes: ran.notes.into_vec(),
    })
}
