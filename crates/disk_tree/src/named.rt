//! Nodes that are added and removed with the entry that resolves to them.
ghost use Rattle.std.specs.Prelude.{◌≡◌, ◌≤◌, ◌⊎◌, [], None, length, IfErr, IfSome, OnOk, OnErr};
ghost use Rattle.mount_limits.specs.declared.TheConstants.{MAX_CHILDREN};
ghost use Rattle.number_map.specs.Numbered as map;
ghost use Rattle.disk_tree.specs.DiskTree.{IsDirAt, children};
ghost use Rattle.disk_tree.specs.EntryChanges.{with_entry_and_name, without_entry_and_name};
ghost use Rattle.disk_tree.specs.Entries.{number_under};
ghost use Rattle.disk_tree.specs.Nodes.{blocks_of};

use crate::changes::count_of_blocks;
use crate::edits;
use crate::fault::DiskFault;
use crate::node::StoredNode;
use crate::tree::DiskTree;
use mount_limits::MAX_NODES;
use std::alloc::Global;

impl DiskTree {
    /// Adds a node under a number that has none, and the entry that resolves to it; the node is named. A
    /// file must have no blocks yet. `dir` must be a directory.
    ///
    /// Returns `NoSpace` exactly if there are 65,536 nodes or the directory has 4,096 entries. Otherwise
    /// the only error is `NoMemory`. After an error the tree is unchanged.
    pub fn add_node_and_entry(
        &mut self,
        alloc: Global,
        dir: u32,
        name: &[u8],
        number: u32,
        node: StoredNode,
    ) -> Result<(), DiskFault>
        requires dir { IsDirAt self.old dir }
        requires absent { map.get self.old number ≡ None }
        requires no_blocks { blocks_of node.body ≡ [] }
        ensures added { OnOk result (self.new
            ≡ with_entry_and_name (map.insert self.old number node) dir name.now number) }
        ensures kept { OnErr result (self.new ≡ self.old) }
        ensures full { MAX_NODES ≤ map.len self.old → result ≡ Err DiskFault.NoSpace }
        ensures full_dir { MAX_CHILDREN ≤ length (children self.old dir) → result ≡ Err DiskFault.NoSpace }
        ensures no_space { IfErr result (λ fault. fault ≡ DiskFault.NoSpace
            → (MAX_NODES ≤ map.len self.old) ⊎ (MAX_CHILDREN ≤ length (children self.old dir))) }
    {
        if self.nodes.len() >= MAX_NODES {
            return Err(DiskFault::NoSpace);
        }
        edits::add_node_and_entry(&mut self.nodes, alloc, dir, name, number, node)
    }

    /// Removes the entry, and the node to which it resolves with its blocks, and returns the node's
    /// number. Returns `None` if no entry has the name; the tree is then unchanged. Allocates nothing.
    pub fn remove_entry_and_node(&mut self, dir: u32, name: &[u8]) -> Option<u32>
        ensures number { result ≡ number_under name.now (children self.old dir) }
        ensures gone { IfSome (number_under name.now (children self.old dir)) (λ number.
            self.new ≡ map.remove (without_entry_and_name self.old dir name.now number) number) }
        ensures kept { number_under name.now (children self.old dir) ≡ None → self.new ≡ self.old }
    {
        match edits::remove_entry(&mut self.nodes, dir, name) {
            Some(number) => {
                let gone = count_of_blocks(self.nodes.remove(number));
                self.blocks -= gone;
                Some(number)
            }
            None => None,
        }
    }
}
