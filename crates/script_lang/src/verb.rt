//! Commands. The fields of a verb are the values of its words.

use item_list::Bytes;
use policy_ctx::{Pad, Unit};
use script_words::{KeyRef, NewSecret, Record, ScriptPath, Secret};
use short_bytes::Label;

/// A command: a call of the mount, a session's work with protectors and policies, or nothing.
#[derive(Drop)]
pub enum Verb {
    /// To add the key of these 1 to 128 bytes. A mount may refuse them, since a raw key has 32 to 64.
    AddKey(Bytes),
    /// To remove the caller's claim on the key.
    RemoveKey(KeyRef),
    /// To remove every user's claim on the key.
    RemoveKeyAll(KeyRef),
    /// To return the state of the key.
    KeyStatus(KeyRef),
    /// To encrypt an empty directory from now on, under this key.
    SetPolicy {
        path: ScriptPath,
        key: KeyRef,
        settings: Settings,
    },
    /// The same by the bytes of a policy, which may be no valid one.
    SetPolicyBytes {
        path: ScriptPath,
        policy: [u8; 24],
    },
    /// To return the policy of a node.
    GetPolicy(ScriptPath),
    /// To make a directory.
    Mkdir(ScriptPath),
    /// To make an empty file.
    Create(ScriptPath),
    /// To make a symlink with a target of 1 to 1,000 bytes, none of which is NUL.
    Symlink {
        path: ScriptPath,
        target: Bytes,
    },
    /// To return a symlink's target.
    ReadLink(ScriptPath),
    /// To remove the name of a file or a symlink.
    Unlink(ScriptPath),
    /// To remove the name of an empty directory.
    Rmdir(ScriptPath),
    /// To move a node to another name.
    Rename {
        old_path: ScriptPath,
        new_path: ScriptPath,
    },
    /// To return names of a directory from this number of their order on. Without a number it begins at
    /// the first; that is another command than with the number 0.
    List {
        path: ScriptPath,
        start: Option<u32>,
    },
    /// To return the kind, the size and the encryption of a node.
    Stat(ScriptPath),
    /// To open a file or a directory.
    Open(ScriptPath),
    /// To close the handle of this number.
    Close(u32),
    /// To read at most `len` bytes from `offset` on.
    Read {
        handle: u32,
        offset: u32,
        len: u32,
    },
    /// To write these 0 to 4,096 bytes from `offset` on.
    Write {
        handle: u32,
        offset: u32,
        bytes: Bytes,
    },
    /// To write one byte repeatedly, at most 65,536 times.
    Fill {
        handle: u32,
        offset: u32,
        len: u32,
        byte: u8,
    },
    /// To drop all that is cached for speed alone.
    DropCaches,
    /// To return a record.
    MetaGet(Record),
    /// To store these 0 to 9,000 bytes as a record, in place of the version that is expected.
    MetaPut {
        record: Record,
        expected: u32,
        bytes: Bytes,
    },
    /// To make a protector.
    Protector {
        protector: Label,
        secret: NewSecret,
    },
    /// To replace a protector's secret.
    ProtectorChange {
        protector: Label,
        secret: Secret,
        new_secret: NewSecret,
    },
    /// To mark a protector as stored on another mount, by a record in its name's place.
    ProtectorLink(Label),
    /// To make a policy that a protector opens.
    PolicyNew {
        policy: Label,
        protector: Label,
        secret: Secret,
        options: Option<Options>,
    },
    /// To let a further protector open a policy.
    PolicyAdd {
        policy: Label,
        protector: Label,
        secret: Secret,
        added: Label,
        added_secret: Secret,
    },
    /// To remove a protector from those that open a policy.
    PolicyDrop {
        policy: Label,
        protector: Label,
    },
    /// To add the key of a policy that a protector opens.
    Unlock {
        policy: Label,
        protector: Label,
        secret: Secret,
    },
    /// To remove the caller's claim on the key of a policy.
    Lock(Label),
    /// To return the state of the key of a policy.
    Status(Label),
    /// To encrypt an empty directory under a policy, with the policy's options if no settings are given.
    Encrypt {
        path: ScriptPath,
        policy: Label,
        settings: Option<Settings>,
    },
    /// To give a policy of the first version options of its own.
    Migrate(Label),
    /// To skip the caller's turn: no call is made.
    Pause,
}

/// The settings of a directory's policy: the padding of names, and the unit of contents if it is given.
#[derive(Clone, Copy, Debug, PartialEq, Eq)]
pub struct Settings {
    pub pad: Pad,
    pub unit: Option<Unit>,
}

/// The options of a new policy.
#[derive(Clone, Copy, Debug, PartialEq, Eq)]
pub struct Options {
    pub pad: Pad,
    pub unit: Unit,
}
