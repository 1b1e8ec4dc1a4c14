//! Steps of tests of a disk: changes of its tree, and queries of it.
ghost use Rattle.std.specs.Prelude.{◌≡◌, []};
ghost use Rattle.disk_tree.specs.Nodes.{blocks_of};

use disk_tree::{BlockList, Body, DirEntries, DiskFault, DiskTree, StoredNode};
use std::alloc::Global;
use std::process::Abort;

fn dir(alloc: Global) -> StoredNode
    ensures { blocks_of result.body ≡ [] }
{
    StoredNode {
        context: None,
        named: false,
        body: Body::Dir(DirEntries::new(alloc)),
    }
}

/// Returns an empty file without a name.
pub(crate) fn file(alloc: Global) -> StoredNode
    ensures { blocks_of result.body ≡ [] }
{
    StoredNode {
        context: None,
        named: false,
        body: Body::File {
            blocks: BlockList::new(alloc),
            size: 0,
        },
    }
}

fn is_named(tree: &DiskTree, number: u32) -> bool {
    match tree.node(number) {
        Some(node) => node.named,
        None => false,
    }
}

// Whether the directory has these names, in this order.
fn has_names(tree: &DiskTree, number: u32, names: &[&[u8]]) -> bool {
    match tree.node(number) {
        Some(
            StoredNode {
                body: Body::Dir(entries),
                ..
            },
        ) => are_names_of(names, entries),
        _ => false,
    }
}

fn are_names_of(names: &[&[u8]], entries: &DirEntries) -> bool {
    names
        .iter()
        .copied()
        .eq(entries.iter().map(|entry| entry.0.as_slice()))
}

/// A change of a tree.
#[derive(Clone, Copy)]
pub(crate) enum Change {
    /// A directory of this number, without a name.
    Dir(u32),
    /// A file of this number, without a name.
    File(u32),
    /// A file of this number with a name in a directory.
    Named((u32, &'static [u8]), u32),
    /// A name in a directory for the node of this number.
    Put((u32, &'static [u8]), u32),
    /// A name in a directory that becomes another.
    Move((u32, &'static [u8]), (u32, &'static [u8])),
    /// This many blocks of a file.
    Grow(u32, u32),
}

/// A query of a tree, with the expected result.
#[derive(Clone, Copy)]
pub(crate) enum Sight {
    /// The directory has these names, in this order.
    Names(u32, &'static [&'static [u8]]),
    /// The name resolves to a node of this number, or to none.
    Resolves((u32, &'static [u8]), Option<u32>),
    /// Whether the node of this number has a name.
    IsNamed(u32, bool),
    /// There is no node of this number.
    Gone(u32),
    /// The number of nodes.
    Nodes(usize),
    /// The number of blocks of all files.
    Blocks(usize),
    /// The number of blocks of the file.
    BlocksOf(u32, usize),
    /// Each byte of this block of file 1 is this one.
    Filled(u32, u8),
}

/// A step of a test: a change or a query of a tree, and its expected result.
#[derive(Clone, Copy)]
pub(crate) enum Step {
    /// The change is made.
    Made(Change),
    /// The change is refused, since there is no space.
    Full(Change),
    /// The query has its expected result.
    Seen(Sight),
    /// The name is dropped; true if it was there.
    Drop((u32, &'static [u8]), bool),
    /// The name is dropped with the node of this number; `None` if it wasn't there.
    DropNamed((u32, &'static [u8]), Option<u32>),
    /// The node of this number is removed.
    Remove(u32),
    /// The node of this number gets a context of this byte.
    Context(u32, u8),
    /// This block of file 1 is filled with this byte.
    Fill(u32, u8),
    /// The file gets this size.
    Size(u32, u32),
}

/// Returns the result of the change, or `None` if the tree doesn't meet the requirements of the call.
pub(crate) fn changed(
    tree: &mut DiskTree,
    alloc: Global,
    change: Change,
) -> Option<Result<(), DiskFault>> {
    match change {
        Change::Dir(number) if tree.node(number).is_none() => {
            Some(tree.add_node(number, dir(alloc)))
        }
        Change::File(number) if tree.node(number).is_none() => {
            Some(tree.add_node(number, file(alloc)))
        }
        Change::Named((at, name), number) if tree.is_dir(at) && tree.node(number).is_none() => {
            Some(tree.add_node_and_entry(alloc, at, name, number, file(alloc)))
        }
        Change::Put((at, name), number) if tree.is_dir(at) => {
            Some(tree.put_entry(alloc, at, name, number))
        }
        Change::Move((from, old), (to, new))
            if tree.is_dir(to) && tree.entry(from, old).is_some() => {
            Some(tree.move_entry(alloc, from, old, to, new))
        }
        Change::Grow(number, blocks) if tree.is_file(number) => {
            Some(tree.grow(alloc, number, blocks))
        }
        _ => None,
    }
}

fn is_seen(tree: &DiskTree, sight: Sight) -> bool {
    match sight {
        Sight::Names(dir, names) => has_names(tree, dir, names),
        Sight::Resolves((dir, name), number) => tree.entry(dir, name) == number,
        Sight::IsNamed(number, named) => is_named(tree, number) == named,
        Sight::Gone(number) => tree.node(number).is_none(),
        Sight::Nodes(count) => tree.node_count() == count,
        Sight::Blocks(total) => tree.block_total() == total,
        Sight::BlocksOf(file, count) => tree.block_count(file) == count,
        Sight::Filled(index, byte) => is_filled(tree, index, byte),
    }
}

fn goes_so(tree: &mut DiskTree, alloc: Global, step: Step) -> bool {
    match step {
        Step::Made(change) => changed(tree, alloc, change) == Some(Ok(())),
        Step::Full(change) => changed(tree, alloc, change) == Some(Err(DiskFault::NoSpace)),
        Step::Seen(sight) => is_seen(tree, sight),
        Step::Drop((dir, name), was_there) => tree.drop_entry(dir, name) == was_there,
        Step::DropNamed((dir, name), number) => tree.remove_entry_and_node(dir, name) == number,
        Step::Remove(number) => {
            tree.remove_node(number);
            true
        }
        Step::Context(number, byte) => {
            tree.set_context(number, [byte; 40]);
            has_context(tree, number, [byte; 40])
        }
        Step::Fill(index, byte) => {
            let is_there = (index as usize) < tree.block_count(1);
            if is_there {
                tree.block_mut(1, index).fill(byte);
            }
            is_there
        }
        Step::Size(number, size) => {
            tree.set_size(number, size);
            true
        }
    }
}

pub(crate) fn go<R: Abort>(rt: &R, tree: &mut DiskTree, alloc: Global, steps: &[Step]) {
    for (place, step) in steps.iter().enumerate() {
        assert!(rt; goes_so(tree, alloc, *step), "step {place}");
    }
}

/// Takes these steps on a new tree.
pub(crate) fn go_on_a_tree<R: Abort>(rt: &R, alloc: Global, steps: &[Step]) {
    let mut tree = DiskTree::new(alloc).expect(rt, "memory");
    go(rt, &mut tree, alloc, steps);
}

fn has_context(tree: &DiskTree, number: u32, context: [u8; 40]) -> bool {
    match tree.node(number) {
        Some(node) => node.context == Some(context),
        None => false,
    }
}

// Whether each byte of this block of file 1 is this one.
fn is_filled(tree: &DiskTree, index: u32, byte: u8) -> bool {
    (index as usize) < tree.block_count(1) && tree.block(1, index).iter().all(|had| *had == byte)
}
