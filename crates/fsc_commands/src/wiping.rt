//! Calls whose bytes are wiped once they are answered.

ghost use Rattle.std.specs.Prelude.{◌≡◌};
ghost use Rattle.fsc_commands.specs.Wiping.{wiped_bytes, wiped_call, wiped_nonce, zeros};

use byte_words::wipe;
use item_list::Bytes;
use mount_model::{Call, Op};
use std::alloc::Global;
use std::mem;

/// Wipes in place the raw key, the nonce, the target, or the bytes that are written or stored, if the call
/// carries any: as many zeros replace them. Allocates nothing.
pub fn wipe_call(alloc: Global, call: &mut Call)
    ensures { call.new ≡ wiped_call call.old }
{
    wipe_bytes(alloc, &mut call.op);
    wipe_nonce(&mut call.op);
}

// Wipes all but the nonce.
fn wipe_bytes(alloc: Global, op: &mut Op)
    ensures { op.new ≡ wiped_bytes op.old }
{
    match op {
        Op::AddKey { raw } => wipe_list(alloc, raw),
        Op::Symlink { target, .. } => wipe_list(alloc, target),
        Op::Write { bytes, .. } => wipe_list(alloc, bytes),
        Op::MetaStore { bytes, .. } => wipe_list(alloc, bytes),
        _ => {}
    }
}

// Wipes the nonce alone.
fn wipe_nonce(op: &mut Op)
    ensures { op.new ≡ wiped_nonce op.old }
{
    match op {
        Op::SetPolicy { nonce, .. } => wipe(nonce),
        Op::Mkdir { nonce, .. } => wipe(nonce),
        Op::Create { nonce, .. } => wipe(nonce),
        Op::Symlink { nonce, .. } => wipe(nonce),
        _ => {}
    }
}

// Writes a zero over each byte, in the memory of the list.
fn wipe_list(alloc: Global, bytes: &mut Bytes)
    ensures { bytes.new ≡ zeros bytes.old }
{
    let mut room = mem::replace(bytes, Bytes::new(alloc)).into_vec();
    wipe(room.as_mut_slice());
    *bytes = Bytes::from_vec(room);
}
