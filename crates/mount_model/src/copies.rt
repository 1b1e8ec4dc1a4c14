//! Copies of operations.

ghost use Rattle.std.specs.Prelude.{◌≡◌, true, false, IsOk, IfOk};
ghost use Rattle.mount_model.specs.Carriers.{carries_bytes, carries_path, carries_path_alone};

use super::Op;
use std::alloc::{AllocError, Global};

impl Op {
    // Returns an equal operation with its own memory.
    pub(crate) fn copy(&self, alloc: Global) -> Result<Op, AllocError>
        ensures equal { IfOk result (λ copy. copy ≡ self.now) }
        ensures takes_none { carries_bytes self.now ≡ false → IsOk result }
    {
        match self {
            Op::RemoveKey { .. }
            | Op::RemoveKeyAll { .. }
            | Op::KeyStatus { .. }
            | Op::Read { .. }
            | Op::Close { .. }
            | Op::DropCaches => Ok(self.copy_without_bytes()),
            Op::AddKey { raw } => Ok(Op::AddKey {
                raw: raw.copy(alloc)?,
            }),
            Op::Write {
                handle,
                offset,
                bytes,
            } => Ok(Op::Write {
                handle: *handle,
                offset: *offset,
                bytes: bytes.copy(alloc)?,
            }),
            Op::MetaLoad { name } => Ok(Op::MetaLoad {
                name: name.copy(alloc)?,
            }),
            Op::MetaStore {
                name,
                expected,
                bytes,
            } => Ok(Op::MetaStore {
                name: name.copy(alloc)?,
                expected: *expected,
                bytes: bytes.copy(alloc)?,
            }),
            _ => self.copy_with_path(alloc),
        }
    }

    // Copies an operation that carries neither a path nor bytes.
    fn copy_without_bytes(&self) -> Op
        requires { carries_bytes self.now ≡ false }
        ensures { result ≡ self.now }
    {
        match self {
            Op::RemoveKey { id } => Op::RemoveKey { id: *id },
            Op::RemoveKeyAll { id } => Op::RemoveKeyAll { id: *id },
            Op::KeyStatus { id } => Op::KeyStatus { id: *id },
            Op::Read {
                handle,
                offset,
                len,
            } => Op::Read {
                handle: *handle,
                offset: *offset,
                len: *len,
            },
            Op::Close { handle } => Op::Close { handle: *handle },
            Op::DropCaches => Op::DropCaches,
            _ => unreachable!(),
        }
    }

    // Copies an operation that carries a path.
    fn copy_with_path(&self, alloc: Global) -> Result<Op, AllocError>
        requires { carries_path self.now ≡ true }
        ensures { IfOk result (λ copy. copy ≡ self.now) }
    {
        Ok(match self {
            Op::SetPolicy {
                path,
                policy,
                nonce,
            } => Op::SetPolicy {
                path: path.copy(alloc)?,
                policy: *policy,
                nonce: *nonce,
            },
            Op::Symlink {
                path,
                target,
                nonce,
            } => Op::Symlink {
                path: path.copy(alloc)?,
                target: target.copy(alloc)?,
                nonce: *nonce,
            },
            Op::Rename { old_path, new_path } => Op::Rename {
                old_path: old_path.copy(alloc)?,
                new_path: new_path.copy(alloc)?,
            },
            Op::Mkdir { path, nonce } => Op::Mkdir {
                path: path.copy(alloc)?,
                nonce: *nonce,
            },
            Op::Create { path, nonce } => Op::Create {
                path: path.copy(alloc)?,
                nonce: *nonce,
            },
            Op::List { path, start } => Op::List {
                path: path.copy(alloc)?,
                start: *start,
            },
            _ => self.copy_with_path_alone(alloc)?,
        })
    }

    // Copies an operation that carries a path and nothing else.
    fn copy_with_path_alone(&self, alloc: Global) -> Result<Op, AllocError>
        requires { carries_path_alone self.now ≡ true }
        ensures { IfOk result (λ copy. copy ≡ self.now) }
    {
        Ok(match self {
            Op::GetPolicy { path } => Op::GetPolicy {
                path: path.copy(alloc)?,
            },
            Op::ReadLink { path } => Op::ReadLink {
                path: path.copy(alloc)?,
            },
            Op::Unlink { path } => Op::Unlink {
                path: path.copy(alloc)?,
            },
            Op::Rmdir { path } => Op::Rmdir {
                path: path.copy(alloc)?,
            },
            Op::Stat { path } => Op::Stat {
                path: path.copy(alloc)?,
            },
            Op::OpenNode { path } => Op::OpenNode {
                path: path.copy(alloc)?,
            },
            _ => unreachable!(),
        })
    }
}
