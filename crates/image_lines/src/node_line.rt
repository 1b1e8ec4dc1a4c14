//! What the lines of an image contain.

use name_crypt::MAX_NAME_BYTES;
use short_bytes::Filled;

/// A name or a target as it is stored: at most 255 bytes.
pub type StoredBytes = Filled<MAX_NAME_BYTES>;

/// The content of the line of a node.
#[derive(Clone, Copy)]
pub struct NodeLine {
    /// The node's number.
    pub number: u32,
    /// The bytes of its context, if it is under a policy.
    pub context: Option<[u8; 40]>,
    /// What the node is.
    pub kind: NodeKind,
}

/// What a node is, and what its own line contains of its body.
#[derive(Clone, Copy)]
pub enum NodeKind {
    /// A directory. The lines of its entries follow.
    Dir,
    /// A file of that many bytes. The lines of its blocks follow.
    File { size: u32 },
    /// A link with this stored target.
    Link(StoredBytes),
}

/// The content of the line of an entry.
#[derive(Clone, Copy)]
pub struct EntryLine {
    /// The stored name.
    pub name: StoredBytes,
    /// The number of the node to which the entry refers.
    pub child: u32,
}
