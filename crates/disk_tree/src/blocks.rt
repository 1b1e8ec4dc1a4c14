//! Blocks of 4,096 bytes, and the list of a file's blocks.
ghost use Rattle.std.specs.Prelude.{◌≡◌, ◌<◌, ◌≤◌, [], ◌∷◌, ◌++◌, length, slice_get};
ghost use Rattle.std.specs.Prelude.{option_copied, IfOk, IsOk, OnOk, OnErr};
ghost use Rattle.std.specs.Borrow.{sem};
ghost use Rattle.disk_tree.specs.Blocks.{zero_block, blocks_grown_to, block_of};

use mount_limits::BLOCK_SIZE;
use std::alloc::{AllocError, Global};
use std::marker::Model;

/// A block of 4,096 bytes. In contracts it is the list of its bytes.
pub struct Block {
    bytes: Vec<u8>,
}

// Implemented, not derived, so that a crate that drops a block needn't prove how its drop works.
impl Drop for Block {
    fn drop(self) {
        let Block { bytes: _ } = self;
    }
}

impl Model for Block {
    ghost use Rattle.std.specs.Prelude.{◌≡◌, ℕ, List, length};
    ghost use Rattle.mount_limits.specs.declared.TheConstants.{BLOCK_SIZE};

    ghost Value = { List ℕ };

    ghost view = { λ b. b.bytes.items };

    ghost invariant = { λ b. length b.bytes.items ≡ BLOCK_SIZE };
}

impl Block {
    ghost use Rattle.disk_tree.specs.BlockWrites.{WritesBlock};

    pub(crate) fn zeros(alloc: Global) -> Result<Block, AllocError>
        ensures { IfOk result (λ block. block ≡ zero_block) }
    {
        let bytes = vec![in alloc; 0; BLOCK_SIZE]?;
        Ok(Block { bytes })
    }

    /// Returns the bytes of the block.
    pub fn bytes(&self) -> &[u8]
        ensures value { result.now ≡ self.now }
        ensures whole { length result.now ≡ BLOCK_SIZE }
    {
        self.bytes.as_slice()
    }

    // The bytes of the block for writing.
    pub(crate) fn bytes_mut(&mut self) -> &mut [u8]
        ensures* writes_back { sem 𝓛 (WritesBlock self.entry result) }
        ensures value { result.now ≡ self.old }
        ensures whole { length result.now ≡ BLOCK_SIZE }
    {
        self.bytes.as_mut_slice()
    }
}

/// The blocks of a file, in order. In contracts it is the list of the blocks.
pub struct BlockList {
    items: Vec<Block>,
}

// Implemented, not derived, so that a crate that drops a list needn't prove how its drop works.
impl Drop for BlockList {
    fn drop(self) {
        let BlockList { items: _ } = self;
    }
}

impl Model for BlockList {
    ghost use Rattle.std.specs.Prelude.{ℕ, List};

    ghost Value = { List (List ℕ) };

    ghost view = { λ bs. bs.items.items };
}

impl BlockList {
    ghost use Rattle.disk_tree.specs.BlockWrites.{WritesOneBlock};

    /// Returns an empty list. Allocates nothing before the first block.
    pub fn new(alloc: Global) -> Self
        ensures { result ≡ [] }
    {
        BlockList {
            items: Vec::new(alloc),
        }
    }

    /// Returns the number of blocks.
    pub fn len(&self) -> usize
        ensures { result ≡ length self.now }
    {
        self.items.len()
    }

    /// Returns the block at the index, counted from 0, or `None` from the length on.
    pub fn get(&self, index: usize) -> Option<&Block>
        ensures { option_copied result ≡ slice_get self.now index }
    {
        self.items.get(index)
    }

    /// Returns the bytes of the block at the index, which must be below the length.
    pub fn bytes(&self, index: usize) -> &[u8]
        requires { index < length self.now }
        ensures value { result.now ≡ block_of self.now index }
        ensures whole { length result.now ≡ BLOCK_SIZE }
    {
        self.items[index].bytes()
    }

    // Adds blocks of zeros at the end until there are `count`. After an error the list is unchanged. If
    // none is added, nothing is allocated.
    pub(crate) fn grow(&mut self, alloc: Global, count: usize) -> Result<(), AllocError>
        ensures grown { OnOk result (self.new ≡ blocks_grown_to count self.old) }
        ensures kept { OnErr result (self.new ≡ self.old) }
        ensures enough { count ≤ length self.old → IsOk result }
    {
        let before = self.items.len();
        for _ in before..count {
            if push_zeros(alloc, &mut self.items).is_err() {
                self.items.truncate(before);
                return Err(AllocError);
            }
        }
        Ok(())
    }

    // The bytes of the block at the index for writing.
    pub(crate) fn bytes_mut(&mut self, index: usize) -> &mut [u8]
        requires { index < length self.old }
        ensures* writes_back { sem 𝓛 (WritesOneBlock self.entry index result) }
        ensures value { result.now ≡ block_of self.old index }
        ensures whole { length result.now ≡ BLOCK_SIZE }
    {
        self.items[index].bytes_mut()
    }
}

fn push_zeros(alloc: Global, items: &mut Vec<Block>) -> Result<(), AllocError>
    ensures put { OnOk result (items.new.items ≡ items.old.items ++ zero_block ∷ []) }
    ensures kept { OnErr result (items.new.items ≡ items.old.items) }
{
    items.push(Block::zeros(alloc)?)?;
    Ok(())
}
