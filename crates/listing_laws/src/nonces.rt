//! That the nonces of a mount are 16 bytes. The functions do nothing: their contracts state it.

ghost use Rattle.byte_words.specs.Bytes.{AreBytesOfLength};
ghost use Rattle.listing_laws.specs.Nonces.{CarriesNonce, MountsHaveNonces};

use byte_words::slice_is_bytes;
use mount_model::{Call, Op};

/// A call that brings a nonce brings 16 bytes, as its type has it.
pub fn call_carries_nonce(call: &Call)
    ensures { CarriesNonce call.now.op }
{
    match &call.op {
        Op::SetPolicy { nonce, .. }
        | Op::Mkdir { nonce, .. }
        | Op::Create { nonce, .. }
        | Op::Symlink { nonce, .. } => is_nonce(nonce),
        Op::AddKey { .. }
        | Op::RemoveKey { .. }
        | Op::RemoveKeyAll { .. }
        | Op::KeyStatus { .. }
        | Op::GetPolicy { .. }
        | Op::ReadLink { .. }
        | Op::Unlink { .. }
        | Op::Rmdir { .. }
        | Op::Rename { .. }
        | Op::List { .. }
        | Op::Stat { .. }
        | Op::OpenNode { .. }
        | Op::Read { .. }
        | Op::Write { .. }
        | Op::Close { .. }
        | Op::DropCaches
        | Op::MetaLoad { .. }
        | Op::MetaStore { .. } => {}
    }
}

// An array of 16 bytes is 16 bytes.
fn is_nonce(nonce: &[u8; 16])
    ensures { AreBytesOfLength 16 nonce.now }
{
    slice_is_bytes(nonce);
}

/// Each nonce of the mount that a history reaches is 16 bytes, if those of its calls are.
pub fn mounts_have_nonces()
    ensures { MountsHaveNonces }
{}
