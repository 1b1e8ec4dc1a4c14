//! The directories that are walked through.
use crate::directories::{NONCE, RAW, TOP, id_of_key, policy_of_key};
use crate::scattering::scattered_name;
use crate::walks::Walk;
use crate::walks::paths::{DEPTH, NEXT, path_to};
use item_list::Bytes;
use mount_keys::{add_key, remove_key};
use mount_names::{create, mkdir, set_policy};
use mount_state::MountState;
use name_crypt::Steps;
use std::alloc::{AllocError, Global};
use std::sync::ledger::Ledger;

/// The number of files in each directory beside the next one, so that it has the maximum number of
/// entries.
const FILES: u32 = 4095;

/// Makes the directories for the walk. In the end the key is present, or absent for a locked walk.
pub(crate) fn make_dirs<L: Ledger>(
    alloc: Global,
    state: &mut MountState,
    walk: Walk,
    steps: &mut Steps<L>,
) -> Result<(), AllocError> {
    make_top(alloc, state, walk, steps)?;
    for depth in 1..=DEPTH {
        fill(alloc, state, depth, steps)?;
    }
    if matches!(walk, Walk::Locked) {
        take_key_away(state);
    }
    Ok(())
}

// Makes the top directory, and encrypts it unless the walk is plain.
fn make_top<L: Ledger>(
    alloc: Global,
    state: &mut MountState,
    walk: Walk,
    steps: &mut Steps<L>,
) -> Result<(), AllocError> {
    make_dir(alloc, state, 0, TOP, steps)?;
    match walk {
        Walk::Plain => Ok(()),
        _ => {
            put_key(alloc, state)?;
            encrypt_top(alloc, state, steps)
        }
    }
}

fn take_key_away(state: &mut MountState) {
    let _removed = remove_key(state, 0, &id_of_key());
}

// Makes a directory of this name at that depth.
fn make_dir<L: Ledger>(
    alloc: Global,
    state: &mut MountState,
    depth: u32,
    name: &[u8],
    steps: &mut Steps<L>,
) -> Result<(), AllocError> {
    let path = path_to(alloc, depth, name)?;
    let _made = mkdir(alloc, state, &path, &NONCE, steps);
    Ok(())
}

// Makes the file of this number at that depth.
fn make_file<L: Ledger>(
    alloc: Global,
    state: &mut MountState,
    depth: u32,
    number: u32,
    steps: &mut Steps<L>,
) -> Result<(), AllocError> {
    let path = path_to(alloc, depth, scattered_name(alloc, number)?.as_slice())?;
    let _made = create(alloc, state, &path, &NONCE, steps);
    Ok(())
}

fn put_key(alloc: Global, state: &mut MountState) -> Result<(), AllocError> {
    let raw = Bytes::from_vec(Vec::from_slice(alloc, &RAW)?);
    let _added = add_key(alloc, state, 0, &raw);
    Ok(())
}

// Encrypts the top directory under the key.
fn encrypt_top<L: Ledger>(
    alloc: Global,
    state: &mut MountState,
    steps: &mut Steps<L>,
) -> Result<(), AllocError> {
    let top = path_to(alloc, 0, TOP)?;
    let _set = set_policy(alloc, state, 0, &top, &policy_of_key(), &NONCE, steps);
    Ok(())
}

// Makes the files and then the next directory in the directory at that depth, so that a search from the
// first entry on finds it last.
fn fill<L: Ledger>(
    alloc: Global,
    state: &mut MountState,
    depth: u32,
    steps: &mut Steps<L>,
) -> Result<(), AllocError> {
    for number in 0..FILES {
        make_file(alloc, state, depth, number, steps)?;
    }
    make_dir(alloc, state, depth, NEXT, steps)
}
