//! What a read has copied, before it is decrypted.
ghost use Rattle.std.specs.Prelude.{◌≡◌, ◌+◌, ◌*◌, ◌/◌, ◌%◌, ◌^◌, ◌<◌, ◌≤◌, length};
ghost use Rattle.mount_limits.specs.declared.TheConstants.{BLOCK_SIZE};

use crate::key::ContentsKey;

/// A pending read: one or two stored blocks of a file, and the key that decrypts them. The content that was
/// asked for is the `len` bytes from byte `skip` of the decrypted text on.
#[derive(Drop)]
pub struct PendingRead {
    /// The key that encrypts the blocks, in a box, so that no move leaves another copy; `None` if they are
    /// plain.
    pub key: Option<Box<ContentsKey>>,
    /// The number of the first block.
    pub block: u32,
    /// The blocks as they are stored.
    pub text: Vec<u8>,
    /// Where in the text the content begins, in bytes.
    pub skip: u32,
    /// The length of the content in bytes.
    pub len: u32,
    pub ghost near: { block + length text.items / BLOCK_SIZE ≤ 2 ^ 20 },
    pub ghost whole_blocks: { length text.items % BLOCK_SIZE ≡ 0 },
    pub ghost some: { 0 < length text.items },
    pub ghost at_most_two: { length text.items ≤ 2 * BLOCK_SIZE },
    pub ghost within: { skip + len ≤ length text.items },
}
