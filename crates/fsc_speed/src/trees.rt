//! The kernels of the tree of stored nodes. They return how many look-ups found something, and no
//! contract says how many that are.
use crate::lengths::ItemCount;
use disk_tree::{Body, DirEntries, DiskTree, StoredNode};
use std::alloc::{AllocError, Global};

/// The repeated work.
#[derive(Clone, Copy)]
pub(crate) enum TreeWork {
    /// Nodes of a tree are looked up by number.
    GetNodes,
    /// Entries of a directory are looked up by stored name.
    GetEntries,
    /// Entries are removed from a directory and added again at its end.
    PutEntries,
}

/// Works on a tree with that many nodes or entries. Returns how many look-ups found something.
pub(crate) fn work(
    alloc: Global,
    work: TreeWork,
    size: ItemCount,
    count: u32,
) -> Result<u32, AllocError> {
    let mut tree = DiskTree::new(alloc)?;
    work_on(alloc, &mut tree, work, size, count)
}

// The same on a borrowed tree, since each call of a function that owns one is expensive to prove.
fn work_on(
    alloc: Global,
    tree: &mut DiskTree,
    work: TreeWork,
    size: ItemCount,
    count: u32,
) -> Result<u32, AllocError> {
    match work {
        TreeWork::GetNodes => {
            add_dirs(alloc, tree, size)?;
            Ok(look_nodes_up(tree, size, count))
        }
        TreeWork::GetEntries => {
            fill_dir(alloc, tree, size)?;
            Ok(look_entries_up(tree, size, count))
        }
        TreeWork::PutEntries => {
            fill_dir(alloc, tree, size)?;
            put_often(alloc, tree, size, count)
        }
    }
}

fn add_dirs(alloc: Global, tree: &mut DiskTree, size: ItemCount) -> Result<(), AllocError> {
    for number in 1..size.items() {
        add_dir(alloc, tree, number)?;
    }
    Ok(())
}

fn look_nodes_up(tree: &DiskTree, size: ItemCount, count: u32) -> u32 {
    let mut found = 0u32;
    for run in 0..count {
        if tree.node(size.place(run)).is_some() {
            found = found.wrapping_add(1);
        }
    }
    found
}

fn look_entries_up(tree: &DiskTree, size: ItemCount, count: u32) -> u32 {
    let mut found = 0u32;
    for run in 0..count {
        if tree.entry(0, &stored_name(size.place(run))).is_some() {
            found = found.wrapping_add(1);
        }
    }
    found
}

fn put_often(
    alloc: Global,
    tree: &mut DiskTree,
    size: ItemCount,
    count: u32,
) -> Result<u32, AllocError> {
    let mut found = 0u32;
    for run in 0..count {
        let name = stored_name(size.place(run));
        if tree.drop_entry(0, &name) {
            found = found.wrapping_add(1);
        }
        put(alloc, tree, &name)?;
    }
    Ok(found)
}

fn add_dir(alloc: Global, tree: &mut DiskTree, number: u32) -> Result<(), AllocError> {
    if tree.node(number).is_some() {
        return Ok(());
    }
    let body = Body::Dir(DirEntries::new(alloc));
    let node = StoredNode {
        context: None,
        named: false,
        body,
    };
    tree.add_node(number, node).map_err(|_| AllocError)
}

// Adds that many entries to the root.
fn fill_dir(alloc: Global, tree: &mut DiskTree, size: ItemCount) -> Result<(), AllocError> {
    add_dir(alloc, tree, 1)?;
    for place in 0..size.items() {
        put(alloc, tree, &stored_name(place))?;
    }
    Ok(())
}

fn put(alloc: Global, tree: &mut DiskTree, name: &[u8]) -> Result<(), AllocError> {
    if !tree.is_dir(0) {
        return Ok(());
    }
    tree.put_entry(alloc, 0, name, 1).map_err(|_| AllocError)
}

// As long as most encrypted names are, and scattered as they are.
fn stored_name(place: u32) -> [u8; 32] {
    let mut name = [0x61; 32];
    name[..4].copy_from_slice(&place.wrapping_mul(2246822519).to_be_bytes());
    name
}
