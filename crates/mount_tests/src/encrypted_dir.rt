//! An encrypted directory `/e`, and calls on its names. A mount is always passed by reference: a function
//! that owns one drops it at each of its exits, and is expensive to prove.
use crate::paths::{part, path_in, path_of};
use crate::reply_values::{id_of_added_key, is_done};
use item_list::Bytes;
use mount_keys::add_key;
use mount_model::{KeyId, Part, Path, Reply};
use mount_names::{create, lookup, mkdir, rename, rmdir, set_policy, stat, unlink};
use mount_state::MountState;
use name_crypt::Steps;
use std::alloc::{AllocError, Global};
use std::process::Abort;
use std::sync::ledger::Ledger;

/// The number of `/e`, which is made first.
const DIR: u32 = 1;

const NONCE: [u8; 16] = [7; 16];

/// AES-256-XTS and AES-256-CTS-CBC, names padded to 32 bytes, as Linux lays a policy out; then 16 bytes of an
/// identifier.
const POLICY: [u8; 24] = [
    2, 1, 4, 3, 0, 0, 0, 0, 0, 0, 0, 0, 0, 0, 0, 0, 0, 0, 0, 0, 0, 0, 0, 0,
];

/// Adds the key of this directory.
pub(crate) fn keyed<A: Abort>(rt: &A, alloc: Global, state: &mut MountState) -> KeyId {
    let raw = raw_key(alloc).expect(rt, "memory");
    id_of_added_key(add_key(alloc, state, 0, &raw)).expect(rt, "a key")
}

/// Adds a key, and makes `/e` under it.
pub(crate) fn encrypted<L: Ledger, A: Abort>(
    rt: &A,
    alloc: Global,
    state: &mut MountState,
    steps: &mut Steps<L>,
) -> KeyId {
    let id = keyed(rt, alloc, state);
    let e = path_of(alloc, b"e").expect(rt, "memory");
    encrypt(rt, alloc, state, (&e, &id), steps);
    id
}

// Makes the directory, and sets the policy under the key.
fn encrypt<L: Ledger, A: Abort>(
    rt: &A,
    alloc: Global,
    state: &mut MountState,
    (dir, id): (&Path, &KeyId),
    steps: &mut Steps<L>,
) {
    assert!(rt; is_done(mkdir(alloc, state, dir, &NONCE, steps)));
    let policy = policy_under(id);
    assert!(rt; is_done(set_policy(alloc, state, 0, dir, &policy, &NONCE, steps)));
}

// The policy under the key.
fn policy_under(id: &KeyId) -> [u8; 24] {
    let mut policy = POLICY;
    policy[8..].copy_from_slice(&id.0);
    policy
}

/// A call on a name in `/e`.
#[derive(Clone, Copy)]
pub(crate) enum Ask {
    Create,
    Mkdir,
    Stat,
    Unlink,
    Rmdir,
}

/// Makes this call on `/e/NAME`.
pub(crate) fn asked<L: Ledger, A: Abort>(
    rt: &A,
    alloc: Global,
    state: &mut MountState,
    (ask, name): (Ask, &[u8]),
    steps: &mut Steps<L>,
) -> Reply {
    let path = path_in(alloc, b"e", name).expect(rt, "memory");
    asked_at(alloc, state, ask, &path, steps)
}

fn asked_at<L: Ledger>(
    alloc: Global,
    state: &mut MountState,
    ask: Ask,
    path: &Path,
    steps: &mut Steps<L>,
) -> Reply {
    match ask {
        Ask::Create => create(alloc, state, path, &NONCE, steps),
        Ask::Mkdir => mkdir(alloc, state, path, &NONCE, steps),
        Ask::Stat => stat(alloc, state, path, steps),
        Ask::Unlink => unlink(alloc, state, path, steps),
        Ask::Rmdir => rmdir(alloc, state, path, steps),
    }
}

/// Renames `/e/FROM` to `/e/TO`.
pub(crate) fn renamed<L: Ledger, A: Abort>(
    rt: &A,
    alloc: Global,
    state: &mut MountState,
    (from, to): (&[u8], &[u8]),
    steps: &mut Steps<L>,
) -> Reply {
    let from = path_in(alloc, b"e", from).expect(rt, "memory");
    let to = path_in(alloc, b"e", to).expect(rt, "memory");
    rename(alloc, state, &from, &to, steps)
}

/// Returns the node to which the name resolves in `/e`.
pub(crate) fn found<L: Ledger, A: Abort>(
    rt: &A,
    alloc: Global,
    state: &mut MountState,
    name: &[u8],
    steps: &mut Steps<L>,
) -> Option<u32> {
    let part = part(alloc, name).expect(rt, "memory");
    looked_up(alloc, state, DIR, &part, steps)
}

/// Returns the node to which the name resolves in the directory.
pub(crate) fn looked_up<L: Ledger>(
    alloc: Global,
    state: &mut MountState,
    dir: u32,
    part: &Part,
    steps: &mut Steps<L>,
) -> Option<u32> {
    if !state.disk.is_dir(dir) || part.bytes().len() > 255 {
        return None;
    }
    lookup(alloc, state, dir, part, steps)
}

/// Returns the node that is cached for the name in `/e`.
pub(crate) fn cached(state: &mut MountState, name: &[u8]) -> Option<u32> {
    if name.len() > 255 {
        return None;
    }
    state.names.find(DIR, name)
}

fn raw_key(alloc: Global) -> Result<Bytes, AllocError> {
    Ok(Bytes::from_vec(Vec::from_elem(alloc, 0x5a, 64)?))
}

/// Returns a name for each number, different from those of other numbers, without `/` and NUL.
pub(crate) fn name_of(number: u16) -> [u8; 5] {
    let [high, low] = number.to_be_bytes();
    [
        b'f',
        0x60 | (high >> 4),
        0x60 | (high & 15),
        0x60 | (low >> 4),
        0x60 | (low & 15),
    ]
}
