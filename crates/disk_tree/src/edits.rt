//! Changes of one node of the map, which leave all other nodes unchanged; and a node added with its
//! entry.
ghost use Rattle.std.specs.Prelude.{◌≡◌, ◌≤◌, None, length, IfErr, IsOk, OnOk, OnErr};
ghost use Rattle.number_map.specs.Numbered as map;
ghost use Rattle.disk_tree.specs.Blocks.{blocks_grown_to};
ghost use Rattle.disk_tree.specs.DiskTree.{IsDirAt, IsFileAt, children, file_blocks};
ghost use Rattle.disk_tree.specs.EntryChanges.{with_entry_and_name};
ghost use Rattle.disk_tree.specs.Entries.{number_under, with_entry, without_entry};
ghost use Rattle.disk_tree.specs.Nodes.{with_entries, with_blocks, with_size};
ghost use Rattle.disk_tree.specs.Nodes.{on_body, named_as, with_context};

use crate::fault::DiskFault;
use crate::node::StoredNode;
use mount_limits::MAX_CHILDREN;
use number_map::NumberMap;
use std::alloc::{AllocError, Global};

pub(crate) fn set_name_flag(nodes: &mut NumberMap<StoredNode>, number: u32, named: bool)
    ensures { nodes.new ≡ map.changed nodes.old number (named_as named) }
{
    if let Some(node) = nodes.get_mut(number) {
        node.named = named;
    }
}

pub(crate) fn set_context(nodes: &mut NumberMap<StoredNode>, number: u32, context: [u8; 40])
    ensures { nodes.new ≡ map.changed nodes.old number (with_context context) }
{
    if let Some(node) = nodes.get_mut(number) {
        node.context = Some(context);
    }
}

pub(crate) fn set_size(nodes: &mut NumberMap<StoredNode>, number: u32, size: u32)
    ensures { nodes.new ≡ map.changed nodes.old number (on_body (with_size size)) }
{
    if let Some(node) = nodes.get_mut(number) {
        node.body.set_size(size);
    }
}

pub(crate) fn add_entry(
    nodes: &mut NumberMap<StoredNode>,
    alloc: Global,
    dir: u32,
    name: &[u8],
    number: u32,
) -> Result<(), AllocError>
    requires { IsDirAt nodes.old dir }
    ensures put { OnOk result (nodes.new
        ≡ map.changed nodes.old dir (on_body (with_entries (with_entry name.now number)))) }
    ensures kept { OnErr result (nodes.new ≡ nodes.old) }
{
    match nodes.get_mut(dir) {
        Some(node) => node.body.add_entry(alloc, name, number),
        None => unreachable!(),
    }
}

// Appends an entry to the directory; `NoSpace` if it has `MAX_CHILDREN`. The directory is looked up once
// for both.
pub(crate) fn add_within(
    nodes: &mut NumberMap<StoredNode>,
    alloc: Global,
    dir: u32,
    name: &[u8],
    number: u32,
) -> Result<(), DiskFault>
    requires { IsDirAt nodes.old dir }
    ensures put { OnOk result (nodes.new
        ≡ map.changed nodes.old dir (on_body (with_entries (with_entry name.now number)))) }
    ensures kept { OnErr result (nodes.new ≡ nodes.old) }
    ensures full { MAX_CHILDREN ≤ length (children nodes.old dir) → result ≡ Err DiskFault.NoSpace }
    ensures no_space { IfErr result (λ fault. fault ≡ DiskFault.NoSpace
        → MAX_CHILDREN ≤ length (children nodes.old dir)) }
{
    match nodes.get_mut(dir) {
        Some(node) => {
            if node.body.entry_count() >= MAX_CHILDREN {
                return Err(DiskFault::NoSpace);
            }
            match node.body.add_entry(alloc, name, number) {
                Ok(()) => Ok(()),
                Err(_) => Err(DiskFault::NoMemory),
            }
        }
        None => unreachable!(),
    }
}

// The fault if there is no memory for a node: the directory for which it was made may be full as well.
fn fault_in(nodes: &NumberMap<StoredNode>, dir: u32) -> DiskFault
    ensures full { MAX_CHILDREN ≤ length (children nodes.now dir) → result ≡ DiskFault.NoSpace }
    ensures no_space { result ≡ DiskFault.NoSpace → MAX_CHILDREN ≤ length (children nodes.now dir) }
{
    match nodes.get(dir) {
        Some(node) if node.body.entry_count() >= MAX_CHILDREN => DiskFault::NoSpace,
        _ => DiskFault::NoMemory,
    }
}

// Adds the node, named, and the entry that resolves to it, or neither. The node comes first, since it can
// be removed again by its number: an entry's name may be in the directory twice.
pub(crate) fn add_node_and_entry(
    nodes: &mut NumberMap<StoredNode>,
    alloc: Global,
    dir: u32,
    name: &[u8],
    number: u32,
    mut node: StoredNode,
) -> Result<(), DiskFault>
    requires dir { IsDirAt nodes.old dir }
    requires absent { map.get nodes.old number ≡ None }
    ensures added { OnOk result (nodes.new
        ≡ with_entry_and_name (map.insert nodes.old number node) dir name.now number) }
    ensures kept { OnErr result (nodes.new ≡ nodes.old) }
    ensures full { MAX_CHILDREN ≤ length (children nodes.old dir) → result ≡ Err DiskFault.NoSpace }
    ensures no_space { IfErr result (λ fault. fault ≡ DiskFault.NoSpace
        → MAX_CHILDREN ≤ length (children nodes.old dir)) }
{
    node.named = true;
    match nodes.set(number, node) {
        Ok(()) => match add_within(nodes, alloc, dir, name, number) {
            Ok(()) => Ok(()),
            Err(fault) => {
                nodes.remove(number);
                Err(fault)
            }
        },
        Err(_) => Err(fault_in(nodes, dir)),
    }
}

pub(crate) fn remove_entry(nodes: &mut NumberMap<StoredNode>, dir: u32, name: &[u8]) -> Option<u32>
    ensures number { result ≡ number_under name.now (children nodes.old dir) }
    ensures removed { nodes.new
        ≡ map.changed nodes.old dir (on_body (with_entries (without_entry name.now))) }
{
    match nodes.get_mut(dir) {
        Some(node) => node.body.remove_entry(name),
        None => None,
    }
}

pub(crate) fn grow(
    nodes: &mut NumberMap<StoredNode>,
    alloc: Global,
    file: u32,
    count: usize,
) -> Result<(), AllocError>
    requires { IsFileAt nodes.old file }
    ensures grown { OnOk result (nodes.new
        ≡ map.changed nodes.old file (on_body (with_blocks (blocks_grown_to count)))) }
    ensures kept { OnErr result (nodes.new ≡ nodes.old) }
    ensures enough { count ≤ length (file_blocks nodes.old file) → IsOk result }
{
    match nodes.get_mut(file) {
        Some(node) => node.body.grow(alloc, count),
        None => unreachable!(),
    }
}
