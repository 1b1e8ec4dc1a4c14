//! The kernels of a mount by name.
use crate::callers::Callers;
use crate::lengths::ItemCount;
use crate::mount::asking::run_alone;
use crate::mount::one_caller::Subject;
use crate::mount::table::{DIRS, FILES, KERNELS, LOOK_UP, MOST, RUN_NAMES};
use crate::mount::turns::ask_in_turns;
use crate::mount::work::{Before, Run, Step};
use std::alloc::{AllocError, Global};
use std::sync::Wait;
use std::thread::Threads;

/// A kernel to be measured.
#[derive(Clone, Copy)]
pub(crate) enum MountKernel {
    /// One thread calls.
    Alone(Before, Run),
    /// Threads call in turns.
    Shared(Subject, Callers),
}

impl MountKernel {
    /// Returns the kernel of this name, such as `mkdir`, `stat-4096` or `shared-read-2`.
    pub(crate) fn named(name: &str) -> Option<MountKernel> {
        for (fixed, kernel) in &KERNELS {
            if *fixed == name {
                return Some(*kernel);
            }
        }
        MountKernel::numbered(name)
    }

    // The kernel whose name ends with the number of names or callers.
    fn numbered(name: &str) -> Option<MountKernel> {
        let (family, number) = name.rsplit_once('-')?;
        match family {
            "mkdir" => MountKernel::beside(number, DIRS),
            "unlink" => MountKernel::beside(number, FILES),
            "stat" => MountKernel::among(number),
            "shared-status" => Some(MountKernel::Shared(Subject::Status, Callers::read(number)?)),
            "shared-read" => Some(MountKernel::Shared(Subject::Read, Callers::read(number)?)),
            _ => None,
        }
    }

    // Names are made and removed, each of them beside all others but one.
    fn beside(number: &str, steps: &'static [Step]) -> Option<MountKernel> {
        let names = ItemCount::read(number, MOST)?.items();
        let run = Run::Steps(steps, names, RUN_NAMES);
        Some(MountKernel::Alone(Before::files(names - 1), run))
    }

    // Names are looked up among that many.
    fn among(number: &str) -> Option<MountKernel> {
        let names = ItemCount::read(number, MOST)?.items();
        let run = Run::Steps(LOOK_UP, 0, RUN_NAMES);
        Some(MountKernel::Alone(Before::files(names), run))
    }

    /// Prepares a mount, makes the calls of a run `count` times, and returns how many of all calls were
    /// refused.
    pub(crate) fn run<R: Threads + Wait + Sync>(
        self,
        rt: &R,
        alloc: Global,
        count: u32,
    ) -> Result<u64, AllocError> {
        match self {
            MountKernel::Alone(before, run) => run_alone(alloc, &before, run, count),
            MountKernel::Shared(subject, callers) => {
                ask_in_turns(rt, alloc, subject, callers, count)
            }
        }
    }
}
