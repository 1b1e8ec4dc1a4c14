//! The replies of a mount.

ghost use Rattle.std.specs.Prelude.{◌≡◌};
ghost use Rattle.mount_model.specs.Numbers.{refusal_number, state_number};

use super::{Bytes, KeyId, NameList};

/// The answer to a call.
#[derive(Drop)]
pub enum Reply {
    /// The key of this identifier is claimed.
    Added(KeyId),
    /// The user's claim is removed. `others`: another user still has one. `busy`: no user has one, and a
    /// file or directory that needs the key is still open.
    Removed {
        others: bool,
        busy: bool,
    },
    /// The key's state, whether the user has a claim, and how many users have one.
    Status {
        state: KeyState,
        by_self: bool,
        users: u32,
    },
    /// The call is done, and there is no value to return.
    Done,
    /// The policy of the node, in Linux's layout.
    PolicyIs([u8; 24]),
    /// Names in the order of their bytes. `more`: further ones follow.
    Names {
        names: NameList,
        more: bool,
    },
    /// The node's kind and number; `size` is a file's length in bytes, a directory's number of entries,
    /// or the length in bytes of what reading a symlink returns. `encrypted`: the node has a policy.
    /// `keyed`: it has none, its key is present, or a handle is open on it.
    Stat {
        kind: NodeKind,
        node: u32,
        size: u32,
        encrypted: bool,
        keyed: bool,
    },
    /// The number of the caller's new handle.
    Opened(u32),
    /// The bytes that were read of a file.
    Content(Bytes),
    /// A symlink's target, or the text shown in its place while its key is absent.
    Target(Bytes),
    /// A record and its version.
    Held {
        version: u32,
        bytes: Bytes,
    },
    /// The version that the record now has.
    Stored(u32),
    /// Nothing was done, for this reason.
    Refused(Refusal),
}

/// An answer with its place in the history of the mount, which counts from 0.
#[derive(Drop)]
pub struct Placed {
    pub place: u64,
    pub reply: Reply,
}

/// The kind of a node.
#[derive(Clone, Copy, Debug, PartialEq, Eq)]
pub enum NodeKind {
    /// A directory.
    Dir,
    /// A regular file.
    File,
    /// A symlink.
    Link,
}

/// The state of a key in a mount.
#[derive(Clone, Copy, Debug, PartialEq, Eq)]
pub enum KeyState {
    /// No part of the key is held.
    Absent,
    /// Some user has a claim on it.
    Present,
    /// No user has a claim, and an open file or directory still needs it.
    Incomplete,
}

/// Why a call was refused.
#[derive(Clone, Copy, Debug, PartialEq, Eq)]
pub enum Refusal {
    /// There is no such key, the user has no claim on it, or it is not available.
    NoKey,
    /// The user may not make this call.
    Access,
    /// The user holds the maximum number of keys.
    Quota,
    /// An argument is invalid.
    Inval,
    /// The name exists already, or the directory has another policy.
    Exists,
    /// There is no such name.
    NotFound,
    /// The node is not a directory.
    NotDir,
    /// The node is a directory.
    IsDir,
    /// The directory has entries.
    NotEmpty,
    /// The directory has a policy, and the node to be moved hasn't the same one.
    XDev,
    /// The node has no policy.
    NoData,
    /// The caller has no such handle open.
    BadHandle,
    /// A name or a target has more than 255 bytes.
    NameTooLong,
    /// More bytes are read, written or stored than are allowed.
    TooBig,
    /// A limit of entries, nodes, blocks, handles or records is reached.
    NoSpace,
    /// Only the key would distinguish the name from another one.
    NoKeyClash,
    /// The record has another version, 0 if there is no record.
    Changed { version: u32 },
    /// The call was out of memory.
    NoMemory,
}

impl KeyState {
    /// Returns the state's number, as Linux's `FS_IOC_GET_ENCRYPTION_KEY_STATUS` gives it: 1 to 3.
    pub fn number(self) -> u8
        ensures { result ≡ state_number self }
    {
        match self {
            KeyState::Absent => 1,
            KeyState::Present => 2,
            KeyState::Incomplete => 3,
        }
    }
}

impl Refusal {
    /// Returns the refusal's number, which is the same in every version: 1 to 18.
    pub fn number(self) -> u8
        ensures { result ≡ refusal_number self }
    {
        match self {
            Refusal::NoKey => 1,
            Refusal::Access => 2,
            Refusal::Quota => 3,
            Refusal::Inval => 4,
            Refusal::Exists => 5,
            Refusal::NotFound => 6,
            Refusal::NotDir => 7,
            Refusal::IsDir => 8,
            Refusal::NotEmpty => 9,
            Refusal::XDev => 10,
            Refusal::NoData => 11,
            Refusal::BadHandle => 12,
            Refusal::NameTooLong => 13,
            Refusal::TooBig => 14,
            Refusal::NoSpace => 15,
            Refusal::NoKeyClash => 16,
            Refusal::Changed { .. } => 17,
            Refusal::NoMemory => 18,
        }
    }
}
