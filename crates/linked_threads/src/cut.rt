//! Callers on both mounts, cut in two.

ghost use Rattle.std.specs.Prelude.{◌≡◌, ◌*◌, ◌<◌, ◌++◌, length, IfOk};
ghost use Rattle.fsc_commands.specs.declared.TheConstants.{MAX_CALLS};
ghost use Rattle.script_runs.specs.Passes.{AreHalves, CanRun};

use crate::mounts::{Callers, Passes, SharedMounts};
use fsc_commands::MAX_CALLS;
use mount_shared::MountMachine;
use script_runs::cut;
use std::alloc::AllocError;

// Cuts callers in two: the first half retain the passes, and the others get two of their own.
pub(crate) fn halve<'a, M: MountMachine, N: MountMachine>(
    shared: &SharedMounts<M, N>,
    callers: Callers<'a, M, N>,
) -> Result<(Callers<'a, M, N>, Callers<'a, M, N>), AllocError>
    requires even { CanRun MAX_CALLS shared.now.even callers.passes.even callers.sections.now }
    requires odd { CanRun (2 * MAX_CALLS) shared.now.odd callers.passes.odd callers.sections.now }
    requires several { 1 < length callers.sections.now }
    ensures whole { IfOk result (λ cut. callers.entry.sections.now
        ≡ cut.0.sections.now ++ cut.1.sections.now) }
    ensures even { IfOk result (λ cut. AreHalves MAX_CALLS shared.now.even callers.entry.passes.even
        cut.0.passes.even cut.1.passes.even cut.0.sections.now cut.1.sections.now) }
    ensures odd { IfOk result (λ cut. AreHalves (2 * MAX_CALLS) shared.now.odd callers.entry.passes.odd
        cut.0.passes.odd cut.1.passes.odd cut.0.sections.now cut.1.sections.now) }
{
    let Callers {
        mut passes,
        sections,
    } = callers;
    let (first, others) = sections.split_at(sections.len() / 2);
    let even = cut(&shared.even, &mut passes.even, first, others, MAX_CALLS)?;
    let odd = cut(&shared.odd, &mut passes.odd, first, others, 2 * MAX_CALLS)?;
    let upper = Passes { even, odd };
    Ok((
        Callers {
            passes,
            sections: first,
        },
        Callers {
            passes: upper,
            sections: others,
        },
    ))
}
