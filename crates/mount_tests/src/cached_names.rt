//! Names that a mount caches, in an encrypted directory `/e`.

use crate::encrypted_dir::{Ask, asked, cached, encrypted, found, keyed, name_of, renamed};
use crate::on_a_mount::{Trial, try_on_a_mount};
use crate::reply_values::{is_done, is_refused, is_removed};
use mount_keys::{drop_caches, remove_key};
use mount_model::{KeyId, KeyState, Refusal};
use mount_state::MountState;
use name_crypt::Steps;
use std::alloc::Global;
use std::process::Abort;
use std::sync::ledger::Ledger;

#[test]
fn a_name_is_cached_once_it_is_looked_up(rt: HostRuntime) {
    try_on_a_mount(&rt, rt.alloc(), Trial::TakeTurns(&LOOK_ONE_UP));
}

#[test]
fn a_name_that_moves_or_goes_is_forgotten(rt: HostRuntime) {
    try_on_a_mount(&rt, rt.alloc(), Trial::TakeTurns(&MOVE_AND_REMOVE));
}

#[test]
fn a_directory_that_goes_is_forgotten(rt: HostRuntime) {
    try_on_a_mount(&rt, rt.alloc(), Trial::TakeTurns(&MAKE_AND_REMOVE));
}

#[test]
fn names_go_with_the_last_claim(rt: HostRuntime) {
    try_on_a_mount(&rt, rt.alloc(), Trial::LoseTheKey);
}

#[test]
fn of_257_names_the_first_is_gone(rt: HostRuntime) {
    try_on_a_mount(&rt, rt.alloc(), Trial::Look257Up);
}

/// A turn in `/e`, and its expected result.
#[derive(Clone, Copy)]
pub(crate) enum Turn {
    /// It is done.
    Done(Ask, &'static [u8]),
    /// The first name becomes the second.
    Renamed(&'static [u8], &'static [u8]),
    /// The name isn't found by its path.
    NotFound(&'static [u8]),
    /// The name resolves to this node, or to none, once it is looked up.
    Resolves(&'static [u8], Option<u32>),
    /// The name is cached with this node, or isn't cached.
    Cached(&'static [u8], Option<u32>),
    /// All caches are dropped.
    Dropped,
}

static LOOK_ONE_UP: [Turn; 11] = [
    Turn::Done(Ask::Create, b"f"),
    Turn::Cached(b"f", None),
    Turn::Resolves(b"f", Some(2)),
    Turn::Cached(b"f", Some(2)),
    Turn::Resolves(b"f", Some(2)),
    Turn::Dropped,
    Turn::Cached(b"f", None),
    Turn::Resolves(b"f", Some(2)),
    Turn::Cached(b"f", Some(2)),
    Turn::Resolves(b"f", Some(2)),
    Turn::Dropped,
];

// A name that is moved or removed is dropped from the cache at once, and the new one is cached once it is
// looked up.
static MOVE_AND_REMOVE: [Turn; 11] = [
    Turn::Done(Ask::Create, b"f"),
    Turn::Resolves(b"f", Some(2)),
    Turn::Renamed(b"f", b"g"),
    Turn::Cached(b"f", None),
    Turn::Cached(b"g", None),
    Turn::NotFound(b"f"),
    Turn::Resolves(b"g", Some(2)),
    Turn::Cached(b"g", Some(2)),
    Turn::Done(Ask::Unlink, b"g"),
    Turn::Cached(b"g", None),
    Turn::Resolves(b"g", None),
];

// The same for a directory.
static MAKE_AND_REMOVE: [Turn; 5] = [
    Turn::Done(Ask::Mkdir, b"d"),
    Turn::Resolves(b"d", Some(2)),
    Turn::Cached(b"d", Some(2)),
    Turn::Done(Ask::Rmdir, b"d"),
    Turn::Cached(b"d", None),
];

/// Takes these turns in a new `/e`.
pub(crate) fn take_turns<L: Ledger, A: Abort>(
    rt: &A,
    alloc: Global,
    state: &mut MountState,
    turns: &[Turn],
    steps: &mut Steps<L>,
) {
    let _id = encrypted(rt, alloc, state, steps);
    for (place, turn) in turns.iter().enumerate() {
        assert!(rt; comes_so(rt, alloc, state, *turn, steps), "turn {place}");
    }
}

fn comes_so<L: Ledger, A: Abort>(
    rt: &A,
    alloc: Global,
    state: &mut MountState,
    turn: Turn,
    steps: &mut Steps<L>,
) -> bool {
    match turn {
        Turn::Done(ask, name) => is_done(asked(rt, alloc, state, (ask, name), steps)),
        Turn::Renamed(from, to) => is_done(renamed(rt, alloc, state, (from, to), steps)),
        Turn::NotFound(name) => {
            let told = asked(rt, alloc, state, (Ask::Stat, name), steps);
            is_refused(told, Refusal::NotFound)
        }
        Turn::Resolves(name, node) => found(rt, alloc, state, name, steps) == node,
        Turn::Cached(name, node) => cached(state, name) == node,
        Turn::Dropped => is_done(drop_caches(state)),
    }
}

// The node of the name of this number; names are made in order.
fn node_of(number: u16) -> Option<u32> {
    Some(u32::from(number) + 2)
}

// Makes `count` names, and looks each up once it is made.
fn make_names<L: Ledger, A: Abort>(
    rt: &A,
    alloc: Global,
    state: &mut MountState,
    count: u16,
    steps: &mut Steps<L>,
) {
    for number in 0..count {
        let name = name_of(number);
        assert!(rt; is_done(asked(rt, alloc, state, (Ask::Create, &name), steps)));
        assert!(rt; found(rt, alloc, state, &name, steps) == node_of(number));
    }
}

// Of 300 names some are cached, and none is after the key was removed. Once the key is back, each
// resolves to the same node as before.
pub(crate) fn lose_the_key<L: Ledger, A: Abort>(
    rt: &A,
    alloc: Global,
    state: &mut MountState,
    steps: &mut Steps<L>,
) {
    let id = encrypted(rt, alloc, state, steps);
    make_names(rt, alloc, state, 300, steps);
    assert!(rt; cached(state, &name_of(299)) == Some(301));
    remove_and_forget(rt, state, &id);
    assert!(rt; keyed(rt, alloc, state) == id);
    for number in 0..300 {
        assert!(rt; found(rt, alloc, state, &name_of(number), steps) == node_of(number));
    }
}

// Removes the last claim on the key.
fn remove_and_forget<A: Abort>(rt: &A, state: &mut MountState, id: &KeyId) {
    assert!(rt; is_removed(remove_key(state, 0, id), false, false));
    assert!(rt; state.status(id) == KeyState::Absent);
    for number in 0..300 {
        assert!(rt; cached(state, &name_of(number)).is_none());
    }
}

// The cache has space for 256 names, and the least recently used one is removed.
pub(crate) fn look_257_up<L: Ledger, A: Abort>(
    rt: &A,
    alloc: Global,
    state: &mut MountState,
    steps: &mut Steps<L>,
) {
    let _id = encrypted(rt, alloc, state, steps);
    make_names(rt, alloc, state, 257, steps);
    assert!(rt; cached(state, &name_of(0)).is_none());
    for number in 1..257 {
        assert!(rt; cached(state, &name_of(number)) == node_of(number));
    }
}
