//! A node as it is stored, and the changes of one node.
ghost use Rattle.std.specs.Prelude.{◌≡◌, ◌<◌, ◌≤◌, ◌↔◌, length, IsOk, IsTrue, OnOk, OnErr};
ghost use Rattle.std.specs.Borrow.{sem};
ghost use Rattle.disk_tree.specs.Blocks.{blocks_grown_to, block_of};
ghost use Rattle.disk_tree.specs.Entries.{number_under, with_entry, without_entry};
ghost use Rattle.disk_tree.specs.Nodes.{entries_of, blocks_of, size_of, with_entries};
ghost use Rattle.disk_tree.specs.Nodes.{with_blocks, with_size, IsDir, IsFile};

use crate::blocks::BlockList;
use crate::entries::DirEntries;
use item_list::Bytes;
use mount_limits::BLOCK_SIZE;
use std::alloc::{AllocError, Global};

/// A node of the disk.
#[derive(Drop)]
pub struct StoredNode {
    /// The bytes of its context, if it is under a policy.
    pub context: Option<[u8; 40]>,
    /// Whether an entry resolves to it.
    pub named: bool,
    /// The content of the node.
    pub body: Body,
}

/// The content of a node.
#[derive(Drop)]
pub enum Body {
    /// Entries, in the order in which they were made.
    Dir(DirEntries),
    /// Blocks, and the file's size in bytes.
    File { blocks: BlockList, size: u32 },
    /// The stored target.
    Link(Bytes),
}

impl Body {
    ghost use Rattle.disk_tree.specs.BodyWrites.{WritesBodyBlock};

    /// Returns whether the body is a directory's.
    pub fn is_dir(&self) -> bool
        ensures { IsTrue result ↔ IsDir self.now }
    {
        matches!(self, Body::Dir(_))
    }

    /// Returns whether the body is a file's.
    pub fn is_file(&self) -> bool
        ensures { IsTrue result ↔ IsFile self.now }
    {
        matches!(self, Body::File { .. })
    }

    /// Returns the number of blocks; 0 for a directory and a link.
    pub fn block_count(&self) -> usize
        ensures { result ≡ length (blocks_of self.now) }
    {
        match self {
            Body::File { blocks, .. } => blocks.len(),
            _ => 0,
        }
    }

    /// Returns the file's size in bytes; 0 for a directory and a link.
    pub fn size(&self) -> u32
        ensures { result ≡ size_of self.now }
    {
        match self {
            Body::File { size, .. } => *size,
            _ => 0,
        }
    }

    /// Returns the number of entries; 0 for a file and a link.
    pub fn entry_count(&self) -> usize
        ensures { result ≡ length (entries_of self.now) }
    {
        match self {
            Body::Dir(entries) => entries.len(),
            _ => 0,
        }
    }

    /// Returns the number under the name in a directory, or `None` if there is none. Other bodies have no
    /// names.
    pub fn find(&self, name: &[u8]) -> Option<u32>
        ensures { result ≡ number_under name.now (entries_of self.now) }
    {
        match self {
            Body::Dir(entries) => entries.find(name),
            _ => None,
        }
    }

    pub(crate) fn add_entry(
        &mut self,
        alloc: Global,
        name: &[u8],
        number: u32,
    ) -> Result<(), AllocError>
        requires { IsDir self.old }
        ensures put { OnOk result (self.new ≡ with_entries (with_entry name.now number) self.old) }
        ensures kept { OnErr result (self.new ≡ self.old) }
    {
        match self {
            Body::Dir(entries) => entries.push(alloc, name, number),
            _ => unreachable!(),
        }
    }

    pub(crate) fn remove_entry(&mut self, name: &[u8]) -> Option<u32>
        ensures number { result ≡ number_under name.now (entries_of self.old) }
        ensures removed { self.new ≡ with_entries (without_entry name.now) self.old }
    {
        match self {
            Body::Dir(entries) => entries.remove(name),
            _ => None,
        }
    }

    pub(crate) fn grow(&mut self, alloc: Global, count: usize) -> Result<(), AllocError>
        requires { IsFile self.old }
        ensures grown { OnOk result (self.new ≡ with_blocks (blocks_grown_to count) self.old) }
        ensures kept { OnErr result (self.new ≡ self.old) }
        ensures enough { count ≤ length (blocks_of self.old) → IsOk result }
    {
        match self {
            Body::File { blocks, .. } => blocks.grow(alloc, count),
            _ => unreachable!(),
        }
    }

    pub(crate) fn set_size(&mut self, new_size: u32)
        ensures { self.new ≡ with_size new_size self.old }
    {
        if let Body::File { size, .. } = self {
            *size = new_size;
        }
    }

    /// Returns the bytes of a file's block at the index, which must be below the number of blocks.
    pub fn block(&self, index: usize) -> &[u8]
        requires { index < length (blocks_of self.now) }
        ensures value { result.now ≡ block_of (blocks_of self.now) index }
        ensures whole { length result.now ≡ BLOCK_SIZE }
    {
        match self {
            Body::File { blocks, .. } => blocks.bytes(index),
            _ => unreachable!(),
        }
    }

    pub(crate) fn block_mut(&mut self, index: usize) -> &mut [u8]
        requires { index < length (blocks_of self.old) }
        ensures* writes_back { sem 𝓛 (WritesBodyBlock self.entry index result) }
        ensures value { result.now ≡ block_of (blocks_of self.old) index }
        ensures whole { length result.now ≡ BLOCK_SIZE }
    {
        match self {
            Body::File { blocks, .. } => blocks.bytes_mut(index),
            _ => unreachable!(),
        }
    }
}
