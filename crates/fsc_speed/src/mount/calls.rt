//! The calls that the kernels make, and their paths.
ghost use Rattle.std.specs.Prelude.{◌≡◌};
ghost use Rattle.mount_model.specs.Fits.{Fits};

use crate::directories::{NONCE, RAW, TOP, policy_of_key, push_part};
use crate::scattering::scattered_name;
use item_list::Bytes;
use mount_model::{Call, KeyId, Op, Part, Path};
use std::alloc::{AllocError, Global};

/// A call on a path.
#[derive(Clone, Copy)]
pub(crate) enum OnPath {
    Mkdir,
    Rmdir,
    Create,
    Unlink,
    Stat,
    Open,
}

impl OnPath {
    /// Returns this call on the path.
    pub(crate) fn call(self, path: Path) -> Call {
        let nonce = NONCE;
        call(match self {
            OnPath::Mkdir => Op::Mkdir { path, nonce },
            OnPath::Rmdir => Op::Rmdir { path },
            OnPath::Create => Op::Create { path, nonce },
            OnPath::Unlink => Op::Unlink { path },
            OnPath::Stat => Op::Stat { path },
            OnPath::Open => Op::OpenNode { path },
        })
    }

    /// Returns this call on the name with this number.
    pub(crate) fn numbered(self, alloc: Global, number: u32) -> Result<Call, AllocError> {
        Ok(self.call(numbered_path(alloc, number)?))
    }
}

/// Returns the call of user 0.
pub(crate) fn call(op: Op) -> Call
    ensures { result.op ≡ op }
{
    Call { uid: 0, op }
}

/// Returns the path of the directory whose names are made and looked up.
pub(crate) fn top_path(alloc: Global) -> Result<Path, AllocError> {
    let mut path = Path::root(alloc);
    push_part(&mut path, alloc, TOP)?;
    Ok(path)
}

/// Returns the path of the name with this number in that directory: 32 digits.
pub(crate) fn numbered_path(alloc: Global, number: u32) -> Result<Path, AllocError> {
    let mut path = top_path(alloc)?;
    path.push(Part::new(scattered_name(alloc, number)?))?;
    Ok(path)
}

pub(crate) fn add_key(alloc: Global) -> Result<Call, AllocError> {
    let raw = Bytes::from_vec(Vec::from_slice(alloc, &RAW)?);
    Ok(call(Op::AddKey { raw }))
}

/// Returns the call that encrypts the directory under the key.
pub(crate) fn set_policy(alloc: Global) -> Result<Call, AllocError> {
    Ok(call(Op::SetPolicy {
        path: top_path(alloc)?,
        policy: policy_of_key(),
        nonce: NONCE,
    }))
}

/// Returns the call that renames the name with the old number to that with the new one.
pub(crate) fn rename(alloc: Global, old: u32, new: u32) -> Result<Call, AllocError> {
    Ok(call(Op::Rename {
        old_path: numbered_path(alloc, old)?,
        new_path: numbered_path(alloc, new)?,
    }))
}

/// Returns the call that lists 128 names of the directory, from this number on.
pub(crate) fn list(alloc: Global, start: u32) -> Result<Call, AllocError> {
    let path = top_path(alloc)?;
    Ok(call(Op::List { path, start }))
}

/// Returns the call for the status of the key with this identifier.
pub(crate) fn status(id: KeyId) -> Call
    ensures { Fits result }
{
    call(Op::KeyStatus { id })
}

/// Returns the call that reads the first block of the file that is open under the handle.
pub(crate) fn read(handle: u32) -> Call
    ensures { Fits result }
{
    call(Op::Read {
        handle,
        offset: 0,
        len: 4096,
    })
}

/// Returns the call that writes `len` bytes at an offset of the file that is open under the caller's
/// first handle.
pub(crate) fn write(alloc: Global, offset: u32, len: usize) -> Result<Call, AllocError> {
    let bytes = Bytes::from_vec(vec![in alloc; 0x62; len]?);
    Ok(call(Op::Write {
        handle: 0,
        offset,
        bytes,
    }))
}
