//! The tree of stored nodes, and its queries.
ghost use Rattle.std.specs.Prelude.{◌≡◌, ◌<◌, ◌↔◌, length, IfOk, IsTrue, option_copied};
ghost use Rattle.number_map.specs.Numbered as map;
ghost use Rattle.disk_tree.specs.Blocks.{block_of};
ghost use Rattle.disk_tree.specs.DiskTree.{first_disk, IsDirAt, IsFileAt, children};
ghost use Rattle.disk_tree.specs.DiskTree.{file_blocks, file_size, block_total};
ghost use Rattle.disk_tree.specs.Entries.{number_under};

use crate::entries::DirEntries;
use crate::node::{Body, StoredNode};
use mount_limits::BLOCK_SIZE;
use number_map::{Iter, NumberMap};
use std::alloc::{AllocError, Global};
use std::marker::Model;

/// The tree of stored nodes. In contracts it is the finite map from numbers to nodes.
pub struct DiskTree {
    pub(crate) nodes: NumberMap<StoredNode>,
    // The number of blocks of all files.
    pub(crate) blocks: usize,
}

// Implemented, not derived, so that a crate that drops a tree needn't prove how its drop works.
impl Drop for DiskTree {
    fn drop(self) {
        let DiskTree {
            nodes: _,
            blocks: _,
        } = self;
    }
}

impl Model for DiskTree {
    ghost use Rattle.std.specs.Prelude.{◌≡◌, ◌≤◌};
    ghost use Rattle.std.specs.FinMap.{FinMap, code};
    ghost use Rattle.std.specs.Ordering.{nat_cmp};
    ghost use Rattle.std.specs.Coded.{coded_ℕ};
    ghost use Rattle.disk_tree.specs.contracts.node.StoredNode as stored;
    ghost use Rattle.disk_tree.specs.declared.node.StoredNode.{StoredNode as Stored};
    ghost use Rattle.disk_tree.specs.DiskTree.{block_total};
    ghost use Rattle.mount_limits.specs.declared.TheConstants.{MAX_BLOCKS};

    ghost Value = { FinMap nat_cmp Stored };

    ghost coded = { code coded_ℕ stored.the_row.coded };

    ghost view = { λ t. t.nodes };

    ghost invariant = { λ t. (t.blocks ≡ block_total t.nodes) × (t.blocks ≤ MAX_BLOCKS) };
}

impl DiskTree {
    /// Returns the initial tree: node 0 alone, an empty directory without context, which counts as named.
    /// The only error is out of memory.
    pub fn new(alloc: Global) -> Result<DiskTree, AllocError>
        ensures { IfOk result (λ tree. tree ≡ first_disk) }
    {
        let mut nodes = NumberMap::new(alloc);
        nodes.set(
            0,
            StoredNode {
                context: None,
                named: true,
                body: Body::Dir(DirEntries::new(alloc)),
            },
        )?;
        Ok(DiskTree { nodes, blocks: 0 })
    }

    /// Returns the node of this number, or `None` if there is none.
    pub fn node(&self, number: u32) -> Option<&StoredNode>
        ensures { option_copied result ≡ map.get self.now number }
    {
        self.nodes.get(number)
    }

    /// Iterates over the nodes with their numbers, by rising number.
    pub fn iter(&self) -> Iter<'_, StoredNode>
        ensures { result ≡ map.entries self.now }
    {
        self.nodes.iter()
    }

    /// Returns the number of nodes.
    pub fn node_count(&self) -> usize
        ensures { result ≡ map.len self.now }
    {
        self.nodes.len()
    }

    /// Returns the number of blocks of all files.
    pub fn block_total(&self) -> usize
        ensures { result ≡ block_total self.now }
    {
        self.blocks
    }

    /// Returns whether the number is a directory's.
    pub fn is_dir(&self, number: u32) -> bool
        ensures { IsTrue result ↔ IsDirAt self.now number }
    {
        match self.nodes.get(number) {
            Some(node) => node.body.is_dir(),
            None => false,
        }
    }

    /// Returns whether the number is a file's.
    pub fn is_file(&self, number: u32) -> bool
        ensures { IsTrue result ↔ IsFileAt self.now number }
    {
        match self.nodes.get(number) {
            Some(node) => node.body.is_file(),
            None => false,
        }
    }

    /// Returns the number of entries of the directory.
    pub fn entry_count(&self, dir: u32) -> usize
        ensures { result ≡ length (children self.now dir) }
    {
        match self.nodes.get(dir) {
            Some(node) => node.body.entry_count(),
            None => 0,
        }
    }

    /// Returns the number of blocks of the file.
    pub fn block_count(&self, file: u32) -> usize
        ensures { result ≡ length (file_blocks self.now file) }
    {
        match self.nodes.get(file) {
            Some(node) => node.body.block_count(),
            None => 0,
        }
    }

    /// Returns the file's size in bytes; 0 if the number is not a file's.
    pub fn file_size(&self, file: u32) -> u32
        ensures { result ≡ file_size self.now file }
    {
        match self.nodes.get(file) {
            Some(node) => node.body.size(),
            None => 0,
        }
    }

    /// Returns the number under the name in the directory.
    pub fn entry(&self, dir: u32, name: &[u8]) -> Option<u32>
        ensures { result ≡ number_under name.now (children self.now dir) }
    {
        match self.nodes.get(dir) {
            Some(node) => node.body.find(name),
            None => None,
        }
    }

    /// Returns the 4,096 bytes of the file's block at the index, counted from 0.
    pub fn block(&self, file: u32, index: u32) -> &[u8]
        requires { index < length (file_blocks self.now file) }
        ensures value { result.now ≡ block_of (file_blocks self.now file) index }
        ensures whole { length result.now ≡ BLOCK_SIZE }
    {
        match self.nodes.get(file) {
            Some(node) => node.body.block(index as usize),
            None => unreachable!(),
        }
    }
}
