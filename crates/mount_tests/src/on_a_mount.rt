//! Trials of a new mount. Only one function owns the mount, and passes references to it: each call in a
//! function that owns a mount is expensive to prove.
ghost use Rattle.std.specs.Prelude.{◌≡◌, ◌<◌};

use crate::cached_names::{Turn, look_257_up, lose_the_key, take_turns};
use crate::handles::{ask_an_empty_mount, open_and_close};
use crate::keys::{add_each_size, add_twice, remove_for_all};
use crate::names::ask_a_new_mount;
use crate::records::load_and_store;
use mount_state::MountState;
use name_crypt::Steps;
use std::alloc::Global;
use std::marker::Brand;
use std::process::Abort;
use std::sync::ledger::{Blank, Ledger};

/// The subject of a trial.
#[derive(Clone, Copy)]
pub(crate) enum Trial {
    TakeTurns(&'static [Turn]),
    LoseTheKey,
    Look257Up,
    AskAnEmptyMount,
    AskANewMount,
    OpenAndClose,
    AddTwice,
    RemoveForAll,
    AddEachSize,
    LoadAndStore,
}

/// Runs this trial on a new mount.
pub(crate) fn try_on_a_mount<A: Abort>(rt: &A, alloc: Global, trial: Trial) {
    let mut state = MountState::new(alloc).expect(rt, "memory");
    try_counted::<Brand, A>(rt, alloc, Blank::new(1), &mut state, trial);
}

// With a ledger of its own, on which each encryption ticks. A contract says that looking up a cached name
// does not tick.
fn try_counted<L: Ledger, A: Abort>(
    rt: &A,
    alloc: Global,
    blank: Blank,
    state: &mut MountState,
    trial: Trial,
)
    requires name { blank.name ≡ L.name }
    requires parts { blank.parts ≡ L.parts }
    requires some { 0 < L.parts }
{
    let mut steps = Steps::<L>::new(blank);
    try_on(rt, alloc, state, &mut steps, trial);
}

fn try_on<L: Ledger, A: Abort>(
    rt: &A,
    alloc: Global,
    state: &mut MountState,
    steps: &mut Steps<L>,
    trial: Trial,
) {
    match trial {
        Trial::TakeTurns(turns) => take_turns(rt, alloc, state, turns, steps),
        Trial::LoseTheKey => lose_the_key(rt, alloc, state, steps),
        Trial::Look257Up => look_257_up(rt, alloc, state, steps),
        Trial::AskAnEmptyMount => ask_an_empty_mount(rt, state),
        Trial::AskANewMount => ask_a_new_mount(rt, alloc, state, steps),
        Trial::OpenAndClose => open_and_close(rt, alloc, state, steps),
        Trial::AddTwice => add_twice(rt, alloc, state),
        Trial::RemoveForAll => remove_for_all(rt, alloc, state),
        Trial::AddEachSize => add_each_size(rt, alloc, state),
        Trial::LoadAndStore => load_and_store(rt, alloc, state),
    }
}
