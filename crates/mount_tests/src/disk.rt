//! Nodes, names and blocks of a disk.

use crate::disk_steps::{Change, Sight, Step, changed, go, go_on_a_tree};
use disk_tree::{DiskFault, DiskTree};
use std::alloc::Global;
use std::hash::{FoldHasher, Hasher};
use std::process::Abort;

static MAKE_MOVE_AND_DROP: [Step; 25] = [
    Step::Made(Change::Dir(1)),
    Step::Made(Change::Dir(2)),
    Step::Made(Change::Dir(3)),
    Step::Made(Change::Put((0, b"c"), 1)),
    Step::Made(Change::Put((0, b"a"), 2)),
    Step::Made(Change::Put((0, b"b"), 3)),
    Step::Seen(Sight::Names(0, &[b"c", b"a", b"b"])),
    Step::Seen(Sight::IsNamed(2, true)),
    Step::Made(Change::Move((0, b"c"), (0, b"d"))),
    Step::Seen(Sight::Names(0, &[b"a", b"b", b"d"])),
    Step::Seen(Sight::Resolves((0, b"d"), Some(1))),
    Step::Seen(Sight::IsNamed(1, true)),
    Step::Made(Change::Move((0, b"a"), (3, b"a"))),
    Step::Seen(Sight::Names(0, &[b"b", b"d"])),
    Step::Seen(Sight::Names(3, &[b"a"])),
    Step::Seen(Sight::Resolves((3, b"a"), Some(2))),
    Step::Seen(Sight::IsNamed(2, true)),
    Step::Drop((0, b"b"), true),
    Step::Drop((0, b"b"), false),
    Step::Seen(Sight::Names(0, &[b"d"])),
    Step::Seen(Sight::IsNamed(3, false)),
    Step::Remove(3),
    Step::Seen(Sight::Gone(3)),
    Step::Seen(Sight::Nodes(3)),
    Step::Context(1, 7),
];

#[test]
fn names_stand_in_the_order_in_which_they_were_made(rt: HostRuntime) {
    go_on_a_tree(&rt, rt.alloc(), &MAKE_MOVE_AND_DROP);
}

// The hash under which a directory finds a name.
fn hash_of(name: &[u8]) -> u64 {
    let mut hasher = FoldHasher::default();
    hasher.write(name);
    hasher.finish()
}

// The last eight bytes make the hash 0, for any bytes before them.
const ONE: &[u8] = b"one name\x15\x7c\x4a\x7f\xb9\x79\x37\x9e";

const ANOTHER: &[u8] = b"another.\x15\x7c\x4a\x7f\xb9\x79\x37\x9e";

static MAKE_TWO_OF_ONE_HASH: [Step; 9] = [
    Step::Made(Change::Put((0, ONE), 1)),
    Step::Seen(Sight::Resolves((0, ANOTHER), None)),
    Step::Drop((0, ANOTHER), false),
    Step::Made(Change::Put((0, ANOTHER), 2)),
    Step::Seen(Sight::Resolves((0, ONE), Some(1))),
    Step::Seen(Sight::Resolves((0, ANOTHER), Some(2))),
    Step::Drop((0, ONE), true),
    Step::Seen(Sight::Resolves((0, ONE), None)),
    Step::Seen(Sight::Resolves((0, ANOTHER), Some(2))),
];

#[test]
fn names_of_one_hash_lead_each_to_its_node(rt: HostRuntime) {
    assert!(rt; hash_of(ONE) == hash_of(ANOTHER));
    go_on_a_tree(&rt, rt.alloc(), &MAKE_TWO_OF_ONE_HASH);
}

static MAKE_TWO_AND_DROP_ONE: [Step; 11] = [
    Step::Made(Change::Named((0, b"a"), 1)),
    Step::Made(Change::Named((0, b"b"), 2)),
    Step::Seen(Sight::Names(0, &[b"a", b"b"])),
    Step::Seen(Sight::IsNamed(2, true)),
    Step::Made(Change::Grow(1, 3)),
    Step::DropNamed((0, b"c"), None),
    Step::DropNamed((0, b"a"), Some(1)),
    Step::Seen(Sight::Gone(1)),
    Step::Seen(Sight::Blocks(0)),
    Step::Seen(Sight::Names(0, &[b"b"])),
    Step::Seen(Sight::Resolves((0, b"b"), Some(2))),
];

#[test]
fn a_node_comes_and_goes_with_its_name(rt: HostRuntime) {
    go_on_a_tree(&rt, rt.alloc(), &MAKE_TWO_AND_DROP_ONE);
}

static WRITE_THE_SECOND_OF_THREE: [Step; 12] = [
    Step::Made(Change::File(1)),
    Step::Made(Change::Grow(1, 3)),
    Step::Seen(Sight::BlocksOf(1, 3)),
    Step::Seen(Sight::Blocks(3)),
    Step::Fill(1, 9),
    Step::Seen(Sight::BlocksOf(1, 3)),
    Step::Seen(Sight::Filled(0, 0)),
    Step::Seen(Sight::Filled(1, 9)),
    Step::Seen(Sight::Filled(2, 0)),
    Step::Size(1, 5000),
    Step::Remove(1),
    Step::Seen(Sight::Blocks(0)),
];

#[test]
fn a_write_changes_one_block_alone(rt: HostRuntime) {
    go_on_a_tree(&rt, rt.alloc(), &WRITE_THE_SECOND_OF_THREE);
}

#[test]
fn the_disk_is_full_at_its_borders_and_not_before(rt: HostRuntime) {
    let mut tree = DiskTree::new(rt.alloc()).expect(&rt, "memory");
    make_all_nodes_and_entries(&rt, &mut tree, rt.alloc());
    go(&rt, &mut tree, rt.alloc(), &BEYOND_ITS_BORDERS);
}

// Makes the maximal number of nodes, and of entries in the root.
fn make_all_nodes_and_entries<R: Abort>(rt: &R, tree: &mut DiskTree, alloc: Global) {
    for number in 1..65536 {
        assert!(rt; changed(tree, alloc, Change::Dir(number)) == Some(Ok(())));
    }
    let one_more = changed(tree, alloc, Change::Dir(65536));
    assert!(rt; one_more == Some(Err(DiskFault::NoSpace)));
    for number in 1..=4096u32 {
        let name = number.to_be_bytes();
        assert!(rt; tree.is_dir(0) && tree.put_entry(alloc, 0, &name, number) == Ok(()));
    }
}

static BEYOND_ITS_BORDERS: [Step; 11] = [
    Step::Full(Change::Put((0, b"more"), 5000)),
    Step::Full(Change::Named((0, b"more"), 65536)),
    Step::Made(Change::Put((1, b"from"), 5000)),
    Step::Full(Change::Move((1, b"from"), (0, b"to"))),
    Step::Made(Change::Move((0, &[0, 0, 0, 1]), (0, b"to"))),
    Step::Remove(65535),
    Step::Full(Change::Named((0, b"more"), 65535)),
    Step::Seen(Sight::Gone(65535)),
    Step::Made(Change::File(65535)),
    Step::Full(Change::Grow(65535, 16385)),
    Step::Made(Change::Grow(65535, 16384)),
];
