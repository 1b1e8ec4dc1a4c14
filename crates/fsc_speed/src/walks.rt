//! The kernels of walks. They return the sum of the nodes that were found, and no contract says which
//! that is.
ghost use Rattle.std.specs.Prelude.{◌≡◌, ◌<◌};

mod dirs;
mod paths;

use crate::walks::dirs::make_dirs;
use crate::walks::paths::{DEPTH, NEXT, locked_path, path_to};
use mount_state::{MountState, walked_node};
use name_crypt::Steps;
use std::alloc::{AllocError, Global};
use std::sync::ledger::{Blank, Ledger};

/// The kind of the directories that are walked through.
#[derive(Clone, Copy)]
pub(crate) enum Walk {
    Plain,
    /// Encrypted, and the key is present.
    Keyed,
    /// Encrypted, and the key is absent: each part is the no-key text of a name.
    Locked,
}

impl Walk {
    /// Returns the walk of this name.
    pub(crate) fn named(name: &str) -> Option<Walk> {
        match name {
            "3-plain" => Some(Walk::Plain),
            "3-keyed" => Some(Walk::Keyed),
            "3-locked" => Some(Walk::Locked),
            _ => None,
        }
    }
}

/// Walks `count` times from a root of one name through three directories of 4,096 names each. Returns the
/// sum of the nodes that the walks find.
pub(crate) fn walk_often<L: Ledger>(
    alloc: Global,
    blank: Blank,
    walk: Walk,
    count: u32,
) -> Result<u32, AllocError>
    requires name { blank.name ≡ L.name }
    requires parts { blank.parts ≡ L.parts }
    requires some { 0 < L.parts }
{
    let mut steps = Steps::<L>::new(blank);
    let mut state = MountState::new(alloc)?;
    walk_in(alloc, &mut state, walk, count, &mut steps)
}

// The same in a borrowed mount, since each call of a function that owns one is expensive to prove.
fn walk_in<L: Ledger>(
    alloc: Global,
    state: &mut MountState,
    walk: Walk,
    count: u32,
    steps: &mut Steps<L>,
) -> Result<u32, AllocError> {
    make_dirs(alloc, state, walk, steps)?;
    let path = match walk {
        Walk::Locked => locked_path(alloc, &state.disk)?,
        _ => path_to(alloc, DEPTH, NEXT)?,
    };
    let mut found = 0u32;
    for _ in 0..count {
        if let Ok(node) = walked_node(alloc, state, &path, steps) {
            found = found.wrapping_add(node);
        }
    }
    Ok(found)
}
