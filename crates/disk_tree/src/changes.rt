//! Whole changes of the tree, each within the limits of the disk.
ghost use Rattle.std.specs.Prelude.{◌≡◌, ◌≢◌, ◌+◌, ◌-◌, ◌<◌, ◌≤◌, ◌↔◌, [], length};
ghost use Rattle.std.specs.Prelude.{IfErr, IfSome, IsOk, IsSome, IsTrue, OnOk, OnErr};
ghost use Rattle.std.specs.Borrow.{sem};
ghost use Rattle.number_map.specs.Numbered as map;
ghost use Rattle.disk_tree.specs.Blocks.{blocks_grown_to, block_of};
ghost use Rattle.disk_tree.specs.DiskTree.{IsDirAt, IsFileAt, children, blocks_in, file_blocks, block_total};
ghost use Rattle.disk_tree.specs.EntryChanges.{with_entry_and_name, without_entry_and_name, with_moved_entry};
ghost use Rattle.disk_tree.specs.Entries.{number_under};
ghost use Rattle.disk_tree.specs.Nodes.{blocks_of, with_blocks, with_size, on_body, with_context};

use crate::edits;
use crate::fault::DiskFault;
use crate::node::StoredNode;
use crate::tree::DiskTree;
use mount_limits::{BLOCK_SIZE, MAX_BLOCKS, MAX_CHILDREN, MAX_NODES};
use std::alloc::Global;

impl DiskTree {
    ghost use Rattle.disk_tree.specs.TreeWrites.{WritesFileBlock};

    /// Adds a node under a number that has none. A file must have no blocks yet.
    ///
    /// Returns `NoSpace` exactly if there are 65,536 nodes. Otherwise the only error is `NoMemory`. After
    /// an error the tree is unchanged.
    pub fn add_node(&mut self, number: u32, node: StoredNode) -> Result<(), DiskFault>
        requires absent { map.get self.old number ≡ None }
        requires no_blocks { blocks_of node.body ≡ [] }
        ensures added { OnOk result (self.new ≡ map.insert self.old number node) }
        ensures kept { OnErr result (self.new ≡ self.old) }
        ensures full { MAX_NODES ≤ map.len self.old → result ≡ Err DiskFault.NoSpace }
        ensures no_space { IfErr result (λ fault. fault ≡ DiskFault.NoSpace → MAX_NODES ≤ map.len self.old) }
    {
        if self.nodes.len() >= MAX_NODES {
            return Err(DiskFault::NoSpace);
        }
        match self.nodes.set(number, node) {
            Ok(()) => Ok(()),
            Err(_) => Err(DiskFault::NoMemory),
        }
    }

    /// Removes the node of this number, with its blocks. Allocates nothing.
    pub fn remove_node(&mut self, number: u32)
        ensures { self.new ≡ map.remove self.old number }
    {
        let gone = count_of_blocks(self.nodes.remove(number));
        self.blocks -= gone;
    }

    /// Sets the context of the node, if there is one of this number.
    pub fn set_context(&mut self, number: u32, context: [u8; 40])
        ensures { self.new ≡ map.changed self.old number (with_context context) }
    {
        edits::set_context(&mut self.nodes, number, context);
    }

    /// Appends an entry that resolves to the node, which is named from then on. `dir` must be a
    /// directory.
    ///
    /// Returns `NoSpace` exactly if the directory has 4,096 entries. Otherwise the only error is
    /// `NoMemory`. After an error the tree is unchanged.
    pub fn put_entry(
        &mut self,
        alloc: Global,
        dir: u32,
        name: &[u8],
        number: u32,
    ) -> Result<(), DiskFault>
        requires { IsDirAt self.old dir }
        ensures put { OnOk result (self.new ≡ with_entry_and_name self.old dir name.now number) }
        ensures kept { OnErr result (self.new ≡ self.old) }
        ensures full { MAX_CHILDREN ≤ length (children self.old dir) → result ≡ Err DiskFault.NoSpace }
        ensures no_space { IfErr result (λ fault. fault ≡ DiskFault.NoSpace
            → MAX_CHILDREN ≤ length (children self.old dir)) }
    {
        edits::add_within(&mut self.nodes, alloc, dir, name, number)?;
        edits::set_name_flag(&mut self.nodes, number, true);
        Ok(())
    }

    /// Removes the entry, after which its node is unnamed. Returns false if no entry has the name; the
    /// tree is then unchanged.
    pub fn drop_entry(&mut self, dir: u32, name: &[u8]) -> bool
        ensures found { IsTrue result ↔ IsSome (number_under name.now (children self.old dir)) }
        ensures gone { IfSome (number_under name.now (children self.old dir)) (λ number.
            self.new ≡ without_entry_and_name self.old dir name.now number) }
        ensures kept { number_under name.now (children self.old dir) ≡ None → self.new ≡ self.old }
    {
        match edits::remove_entry(&mut self.nodes, dir, name) {
            Some(number) => {
                edits::set_name_flag(&mut self.nodes, number, false);
                true
            }
            None => false,
        }
    }

    /// Moves the entry to a new name, in the same directory or in another. The new name resolves to the
    /// same node, which stays named.
    ///
    /// Returns `NoSpace` exactly if `to` is another directory and has 4,096 entries. Otherwise the only
    /// error is `NoMemory`. After an error the tree is unchanged.
    pub fn move_entry(
        &mut self,
        alloc: Global,
        dir: u32,
        name: &[u8],
        to: u32,
        new_name: &[u8],
    ) -> Result<(), DiskFault>
        requires to { IsDirAt self.old to }
        requires there { IsSome (number_under name.now (children self.old dir)) }
        ensures moved { OnOk result (IfSome (number_under name.now (children self.old dir)) (λ number.
            self.new ≡ with_moved_entry self.old dir name.now to new_name.now number)) }
        ensures kept { OnErr result (self.new ≡ self.old) }
        ensures full { to ≢ dir → MAX_CHILDREN ≤ length (children self.old to)
            → result ≡ Err DiskFault.NoSpace }
        ensures no_space { IfErr result (λ fault. fault ≡ DiskFault.NoSpace
            → (to ≢ dir) × (MAX_CHILDREN ≤ length (children self.old to))) }
    {
        if to != dir && self.entry_count(to) >= MAX_CHILDREN {
            return Err(DiskFault::NoSpace);
        }
        let Some(number) = self.entry(dir, name) else {
            unreachable!()
        };
        match edits::add_entry(&mut self.nodes, alloc, to, new_name, number) {
            Ok(()) => {
                edits::remove_entry(&mut self.nodes, dir, name);
                Ok(())
            }
            Err(_) => Err(DiskFault::NoMemory),
        }
    }

    /// Adds blocks of zeros at the end of the file until it has `blocks`. A file that has as many is
    /// unchanged, and nothing is allocated for it.
    ///
    /// Returns `NoSpace` exactly if all files would have more than 16,384 blocks. Otherwise the only
    /// error is `NoMemory`. After an error the tree is unchanged.
    pub fn grow(&mut self, alloc: Global, file: u32, blocks: u32) -> Result<(), DiskFault>
        requires { IsFileAt self.old file }
        ensures grown { OnOk result (self.new
            ≡ map.changed self.old file (on_body (with_blocks (blocks_grown_to blocks)))) }
        ensures kept { OnErr result (self.new ≡ self.old) }
        ensures enough { blocks ≤ length (file_blocks self.old file) → IsOk result }
        ensures full { MAX_BLOCKS < block_total self.old + (blocks - length (file_blocks self.old file))
            → result ≡ Err DiskFault.NoSpace }
        ensures no_space { IfErr result (λ fault. fault ≡ DiskFault.NoSpace
            → MAX_BLOCKS < block_total self.old + (blocks - length (file_blocks self.old file))) }
    {
        let more = (blocks as usize).saturating_sub(self.block_count(file));
        if self.blocks + more > MAX_BLOCKS {
            return Err(DiskFault::NoSpace);
        }
        match edits::grow(&mut self.nodes, alloc, file, blocks as usize) {
            Ok(()) => {
                self.blocks += more;
                Ok(())
            }
            Err(_) => Err(DiskFault::NoMemory),
        }
    }

    /// Returns the 4,096 bytes of the file's block at the index, counted from 0, for writing. The rest of
    /// the tree is unchanged.
    pub fn block_mut(&mut self, file: u32, index: u32) -> &mut [u8]
        requires { index < length (file_blocks self.old file) }
        ensures* writes_back { sem 𝓛 (WritesFileBlock self.entry file index result) }
        ensures value { result.now ≡ block_of (file_blocks self.old file) index }
        ensures whole { length result.now ≡ BLOCK_SIZE }
    {
        match self.nodes.get_mut(file) {
            Some(node) => node.body.block_mut(index as usize),
            None => unreachable!(),
        }
    }

    /// Sets the size of the file in bytes.
    pub fn set_size(&mut self, file: u32, size: u32)
        ensures { self.new ≡ map.changed self.old file (on_body (with_size size)) }
    {
        edits::set_size(&mut self.nodes, file, size);
    }
}

// The number of blocks that are removed with the node.
pub(crate) fn count_of_blocks(node: Option<StoredNode>) -> usize
    ensures { result ≡ length (blocks_in node) }
{
    match node {
        Some(node) => node.body.block_count(),
        None => 0,
    }
}
