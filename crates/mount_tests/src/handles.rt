//! Handles, and the calls on open files.

use crate::on_a_mount::{Trial, try_on_a_mount};
use crate::reply_values::{is_done, is_refused, opened_handle};
use mount_files::{close, open_node};
use mount_model::{Path, Refusal};
use mount_state::{HandleTable, KeyId, KeyState, MountState};
use name_crypt::Steps;
use std::alloc::Global;
use std::process::Abort;
use std::sync::ledger::Ledger;

#[test]
fn numbers_of_handles_are_not_given_again(rt: HostRuntime) {
    let mut handles = HandleTable::new(rt.alloc());
    assert!(rt; handles.open(1, 10) == Ok(0));
    assert!(rt; handles.open(1, 11) == Ok(1));
    assert!(rt; handles.open(2, 10) == Ok(0));
    handles.close(1, 1);
    assert!(rt; handles.open(1, 12) == Ok(2));
    assert!(rt; handles.node_of(1, 0) == Some(10));
    assert!(rt; handles.node_of(1, 1).is_none());
    assert!(rt; handles.node_of(2, 0) == Some(10));
    assert!(rt; handles.live().len() == 3);
}

#[test]
fn an_empty_mount_holds_no_key_and_no_name(rt: HostRuntime) {
    try_on_a_mount(&rt, rt.alloc(), Trial::AskAnEmptyMount);
}

pub(crate) fn ask_an_empty_mount<A: Abort>(rt: &A, state: &MountState) {
    assert!(rt; state.status(&KeyId([7; 16])) == KeyState::Absent);
    assert!(rt; state.keyed(0));
    assert!(rt; state.entry_by_name(0, b"letter").is_none());
    assert!(rt; state.entry_by_text(0, b"AAAAAAAAAAA").is_none());
}

#[test]
fn a_handle_is_its_callers_until_it_is_closed(rt: HostRuntime) {
    try_on_a_mount(&rt, rt.alloc(), Trial::OpenAndClose);
}

pub(crate) fn open_and_close<L: Ledger, A: Abort>(
    rt: &A,
    alloc: Global,
    state: &mut MountState,
    steps: &mut Steps<L>,
) {
    let root = Path::root(alloc);
    for number in 0..2 {
        assert!(rt; opens(alloc, state, &root, steps) == Some(number));
    }
    close_both(rt, state);
    assert!(rt; opens(alloc, state, &root, steps) == Some(2));
}

// The handle that user 7 opens.
fn opens<L: Ledger>(
    alloc: Global,
    state: &mut MountState,
    path: &Path,
    steps: &mut Steps<L>,
) -> Option<u32> {
    opened_handle(open_node(alloc, state, 7, path, steps))
}

fn close_both<A: Abort>(rt: &A, state: &mut MountState) {
    assert!(rt; is_refused(close(state, 8, 0), Refusal::BadHandle));
    assert!(rt; is_done(close(state, 7, 0)));
    assert!(rt; is_refused(close(state, 7, 0), Refusal::BadHandle));
    assert!(rt; is_done(close(state, 7, 1)));
}
