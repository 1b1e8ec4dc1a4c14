//! The paths to the directories that are walked through.
use crate::directories::{TOP, push_part};
use disk_tree::{Body, DiskTree};
use mount_model::Path;
use name_crypt::{StoredName, nokey_text};
use std::alloc::{AllocError, Global};

/// The number of directories of 4,096 names that are walked through.
pub(crate) const DEPTH: u32 = 3;

/// The name of each but the top one.
pub(crate) const NEXT: &[u8] = b"the next directory";

/// Returns the path to a name at that depth: the root is at depth 0.
pub(crate) fn path_to(alloc: Global, depth: u32, name: &[u8]) -> Result<Path, AllocError> {
    let mut path = Path::root(alloc);
    for above in 0..depth {
        push_part(&mut path, alloc, if above == 0 { TOP } else { NEXT })?;
    }
    push_part(&mut path, alloc, name)?;
    Ok(path)
}

/// Returns the path of texts to the last directory, when the key is absent. Each directory is the newest
/// entry of the one that contains it.
pub(crate) fn locked_path(alloc: Global, disk: &DiskTree) -> Result<Path, AllocError> {
    let mut path = path_to(alloc, 0, TOP)?;
    push_texts(&mut path, alloc, disk)?;
    Ok(path)
}

// Appends the texts of the directories below the top one.
fn push_texts(path: &mut Path, alloc: Global, disk: &DiskTree) -> Result<(), AllocError> {
    let mut dir = disk.entry(0, TOP).ok_or(AllocError)?;
    for _ in 0..DEPTH {
        let (name, node) = newest_in(disk, dir).ok_or(AllocError)?;
        push_text(path, alloc, name)?;
        dir = node;
    }
    Ok(())
}

// The stored name and the node of the directory's newest entry.
fn newest_in(disk: &DiskTree, dir: u32) -> Option<(&[u8], u32)> {
    match &disk.node(dir)?.body {
        Body::Dir(entries) => {
            let (name, node) = entries.iter().last()?;
            Some((name.as_slice(), *node))
        }
        _ => None,
    }
}

// Appends the no-key text of the stored name.
fn push_text(path: &mut Path, alloc: Global, stored: &[u8]) -> Result<(), AllocError> {
    match StoredName::read(stored) {
        Ok(stored) => push_part(path, alloc, nokey_text(&stored).bytes()),
        Err(_) => Err(AllocError),
    }
}
