//! Calls on keys.

use crate::on_a_mount::{Trial, try_on_a_mount};
use crate::reply_values::{id_of_added_key, is_done, is_refused, is_removed};
use mount_keys::{
    Bytes, KeyId, KeyState, MountState, Reply, add_key, drop_caches, key_status, remove_key,
    remove_key_all,
};
use mount_model::Refusal;
use std::alloc::{AllocError, Global};
use std::process::Abort;

/// The identifier of the key of the bytes 0 to 63, as Linux returned it.
const ID: KeyId = KeyId([
    0x86, 0x99, 0xc2, 0xc5, 0x37, 0x07, 0x40, 0x5d, 0xa5, 0xab, 0xa5, 0xae, 0x4d, 0x85, 0x83, 0xc0,
]);

fn raw_key(alloc: Global) -> Result<Bytes, AllocError> {
    let mut bytes = Bytes::new(alloc);
    for byte in 0..64 {
        bytes.push(byte)?;
    }
    Ok(bytes)
}

// Each of the users adds that key.
fn add_for<A: Abort>(rt: &A, alloc: Global, state: &mut MountState, uids: &[u32]) {
    let raw = raw_key(alloc).expect(rt, "memory");
    for uid in uids {
        let added = add_key(alloc, state, *uid, &raw);
        assert!(rt; id_of_added_key(added) == Some(ID));
    }
}

// Whether the reply is that status of a key, for a user without a claim on it.
fn is_status(told: Reply, wanted: KeyState, wanted_users: u32) -> bool {
    matches!(
        told,
        Reply::Status { state, by_self: false, users } if state == wanted && users == wanted_users
    )
}

#[test]
fn adding_twice_makes_one_claim(rt: HostRuntime) {
    try_on_a_mount(&rt, rt.alloc(), Trial::AddTwice);
}

pub(crate) fn add_twice<A: Abort>(rt: &A, alloc: Global, state: &mut MountState) {
    add_for(rt, alloc, state, &[1000, 1000, 1001]);
    assert!(rt; is_status(key_status(state, 1002, &ID), KeyState::Present, 2));
    assert!(rt; is_refused(remove_key(state, 1002, &ID), Refusal::NoKey));
    assert!(rt; is_removed(remove_key(state, 1000, &ID), true, false));
    assert!(rt; is_refused(remove_key(state, 1000, &ID), Refusal::NoKey));
    assert!(rt; is_removed(remove_key(state, 1001, &ID), false, false));
    assert!(rt; is_status(key_status(state, 1001, &ID), KeyState::Absent, 0));
}

#[test]
fn user_0_takes_every_claim_away(rt: HostRuntime) {
    try_on_a_mount(&rt, rt.alloc(), Trial::RemoveForAll);
}

pub(crate) fn remove_for_all<A: Abort>(rt: &A, alloc: Global, state: &mut MountState) {
    add_for(rt, alloc, state, &[0, 1, 2]);
    assert!(rt; is_refused(remove_key_all(state, 1, &ID), Refusal::Access));
    assert!(rt; is_removed(remove_key_all(state, 0, &ID), false, false));
    assert!(rt; is_refused(remove_key_all(state, 0, &ID), Refusal::NoKey));
    assert!(rt; is_done(drop_caches(state)));
}

#[test]
fn a_raw_key_has_32_to_64_bytes(rt: HostRuntime) {
    try_on_a_mount(&rt, rt.alloc(), Trial::AddEachSize);
}

pub(crate) fn add_each_size<A: Abort>(rt: &A, alloc: Global, state: &mut MountState) {
    assert!(rt; is_refused(added(rt, alloc, state, 31), Refusal::Inval));
    assert!(rt; id_of_added_key(added(rt, alloc, state, 32)).is_some());
    assert!(rt; id_of_added_key(added(rt, alloc, state, 64)).is_some());
    assert!(rt; is_refused(added(rt, alloc, state, 65), Refusal::Inval));
}

// The reply to adding a key of `length` bytes.
fn added<A: Abort>(rt: &A, alloc: Global, state: &mut MountState, length: usize) -> Reply {
    let raw = Bytes::from_vec(Vec::from_elem(alloc, 7, length).expect(rt, "memory"));
    add_key(alloc, state, 1000, &raw)
}
