//! The calls of a mount.

ghost use Rattle.std.specs.Prelude.{◌≡◌, ◌↔◌, false, IsTrue, IsOk, IfOk};
ghost use Rattle.mount_model.specs.Carried.{AreFewBytes, HasLength, IsTarget};
ghost use Rattle.mount_model.specs.Fits.{Fits, OpFits};
ghost use Rattle.mount_model.specs.Carriers.{carries_bytes};

use super::limits::{
    MAX_CARRIED_BYTES, MAX_RAW_BYTES, MAX_RECORD_NAME_BYTES, MAX_TARGET_BYTES, MAX_WRITE_BYTES,
};
use super::{Bytes, KeyId, Path};
use std::alloc::{AllocError, Global};

/// A call of the mount: the number of the calling user, and the operation.
#[derive(Drop)]
pub struct Call {
    pub uid: u32,
    pub op: Op,
}

/// An operation of the mount. A policy is 24 bytes in Linux's layout. The keys of a single node are
/// derived with a nonce.
#[derive(Drop)]
pub enum Op {
    /// Claim the master key of these bytes for the user.
    AddKey {
        raw: Bytes,
    },
    /// Remove the user's claim on the key.
    RemoveKey {
        id: KeyId,
    },
    /// Remove every user's claim on the key.
    RemoveKeyAll {
        id: KeyId,
    },
    /// Return the key's state, and how many users have a claim on it.
    KeyStatus {
        id: KeyId,
    },
    /// Encrypt an empty directory from now on.
    SetPolicy {
        path: Path,
        policy: [u8; 24],
        nonce: [u8; 16],
    },
    /// Return the policy of a node.
    GetPolicy {
        path: Path,
    },
    /// Make a directory.
    Mkdir {
        path: Path,
        nonce: [u8; 16],
    },
    /// Make an empty file.
    Create {
        path: Path,
        nonce: [u8; 16],
    },
    /// Make a symlink.
    Symlink {
        path: Path,
        target: Bytes,
        nonce: [u8; 16],
    },
    /// Return a symlink's target.
    ReadLink {
        path: Path,
    },
    /// Remove the name of a file or a symlink.
    Unlink {
        path: Path,
    },
    /// Remove the name of an empty directory.
    Rmdir {
        path: Path,
    },
    /// Move a node to another name, which must be free.
    Rename {
        old_path: Path,
        new_path: Path,
    },
    /// Return names of a directory, from number `start` of their order on.
    List {
        path: Path,
        start: u32,
    },
    /// Return the kind, the size and the encryption of a node.
    Stat {
        path: Path,
    },
    /// Open a file or a directory.
    OpenNode {
        path: Path,
    },
    /// Read contents of an open file, at most `len` bytes from `offset` on.
    Read {
        handle: u32,
        offset: u32,
        len: u32,
    },
    /// Write contents of an open file from `offset` on.
    Write {
        handle: u32,
        offset: u32,
        bytes: Bytes,
    },
    /// Close the handle of this number.
    Close {
        handle: u32,
    },
    /// Drop all that is cached for speed alone.
    DropCaches,
    /// Return a record.
    MetaLoad {
        name: Bytes,
    },
    /// Store a record, in place of the version that is expected; 0 expects that there is no record.
    MetaStore {
        name: Bytes,
        expected: u32,
        bytes: Bytes,
    },
}

impl Call {
    /// Returns whether the mount may be asked this call, which has to fit these limits.
    ///
    /// A raw key has 1 to 128 bytes. A path has at most 32 parts, each of 1 to 1,000 bytes without `/`
    /// and NUL, and neither `.` nor `..`. A target has 1 to 1,000 bytes without NUL. Written bytes are at
    /// most 65,536. A record's name has 1 to 64 bytes, its bytes are at most 9,000.
    pub fn fits(&self) -> bool
        ensures { IsTrue result ↔ Fits self.now }
    {
        self.op.fits()
    }

    /// Returns an equal call with its own memory, for a caller that passes a call to a port and retains
    /// it too. Never fails if the call carries neither a path nor bytes.
    pub fn copy(&self, alloc: Global) -> Result<Call, AllocError>
        ensures equal { IfOk result (λ copy. copy ≡ self.now) }
        ensures takes_none { carries_bytes self.now.op ≡ false → IsOk result }
    {
        let op = self.op.copy(alloc)?;
        Ok(Call { uid: self.uid, op })
    }
}

impl Op {
    // Whether what the operation carries fits.
    fn fits(&self) -> bool
        ensures { IsTrue result ↔ OpFits self.now }
    {
        match self {
            Op::AddKey { raw } => has_length(raw, MAX_RAW_BYTES),
            Op::SetPolicy { path, .. }
            | Op::GetPolicy { path }
            | Op::Mkdir { path, .. }
            | Op::Create { path, .. }
            | Op::ReadLink { path }
            | Op::Unlink { path }
            | Op::Rmdir { path }
            | Op::List { path, .. }
            | Op::Stat { path }
            | Op::OpenNode { path } => path.fits(),
            Op::Symlink { path, target, .. } => path.fits() && is_target(target),
            Op::Rename { old_path, new_path } => old_path.fits() && new_path.fits(),
            Op::Write { bytes, .. } => are_few(bytes.as_slice(), MAX_WRITE_BYTES),
            Op::MetaLoad { name } => has_length(name, MAX_RECORD_NAME_BYTES),
            Op::MetaStore { name, bytes, .. } => {
                has_length(name, MAX_RECORD_NAME_BYTES) && bytes.len() <= MAX_CARRIED_BYTES
            }
            Op::RemoveKey { .. }
            | Op::RemoveKeyAll { .. }
            | Op::KeyStatus { .. }
            | Op::Read { .. }
            | Op::Close { .. }
            | Op::DropCaches => true,
        }
    }
}

// Whether there are 1 to `most` bytes.
fn has_length(bytes: &Bytes, most: usize) -> bool
    ensures { IsTrue result ↔ HasLength bytes.now most }
{
    !bytes.is_empty() && bytes.len() <= most
}

// Whether a call may carry the bytes as a symlink's target.
fn is_target(bytes: &Bytes) -> bool
    ensures { IsTrue result ↔ IsTarget bytes.now }
{
    has_length(bytes, MAX_TARGET_BYTES) && bytes.as_slice().iter().all(|byte| *byte != 0)
}

// Whether there are at most `most` bytes.
fn are_few(bytes: &[u8], most: usize) -> bool
    ensures { IsTrue result ↔ AreFewBytes bytes.now most }
{
    bytes.len() <= most
}
