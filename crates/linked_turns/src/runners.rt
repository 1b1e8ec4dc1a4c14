//! A caller that works on two mounts.

ghost use Rattle.std.specs.Prelude.{◌≡◌, ◌≤◌, IfOk, length, map};
ghost use Rattle.script_lang.specs.declared.limits.TheConstants.{MAX_CALLERS};
ghost use Rattle.linked_turns.specs.Callers.{fresh_views, view_of};

use fsc_session::Runner;
use mount_links::LinkStep;
use script_lang::Section;
use std::alloc::{AllocError, Global};

/// A caller between two commands, with what became of each of its calls if it works on mount 1.
#[derive(Drop)]
pub(crate) struct LinkedRunner<'a> {
    pub(crate) runner: Runner<'a>,
    pub(crate) steps: Vec<LinkStep>,
}

// Returns a caller for each section, before its first command.
pub(crate) fn fresh_runners(
    alloc: Global,
    sections: &[Section],
) -> Result<Vec<LinkedRunner<'_>>, AllocError>
    requires { length sections.now ≤ MAX_CALLERS }
    ensures { IfOk result (λ runners. map view_of runners.items ≡ fresh_views 0 sections.now) }
{
    let mut runners = Vec::new(alloc);
    'sections: for (caller, section) in sections.iter().enumerate() {
        runners.push(LinkedRunner {
            runner: Runner::new(alloc, caller as u32, section),
            steps: Vec::new(alloc),
        })?;
    }
    Ok(runners)
}
