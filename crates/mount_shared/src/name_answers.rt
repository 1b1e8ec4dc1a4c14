//! The calls on names.

ghost use Rattle.std.specs.Prelude.{ℕ, IsTrue};
ghost use Rattle.call_history.specs.Entries.{entry};
ghost use Rattle.mount_model.specs.Fits.{Fits};
ghost use Rattle.mount_shared.specs.Groups.{is_on_names};
ghost use Rattle.mount_shared.specs.Made.{IsMade};

use mount_model::{Call, Op, Reply};
use mount_names::{
    create, get_policy, list, mkdir, read_link, rename, rmdir, set_policy, stat, symlink, unlink,
};
use mount_state::MountState;
use name_crypt::Steps;
use std::alloc::Global;
use std::sync::ledger::Ledger;

// Returns the reply to a call on names. `steps` counts the names that are encrypted.
pub(crate) fn reply_on_names<L: Ledger>(
    alloc: Global,
    state: &mut MountState,
    call: &Call,
    steps: &mut Steps<L>,
) -> Reply
    requires on_names { IsTrue (is_on_names call.now.op) }
    requires fits { Fits call.now }
    ensures { (caller : ℕ) → IsMade state.old (entry caller call.now result) state.new }
{
    match &call.op {
        Op::Stat { path } => stat(alloc, state, path, steps),
        Op::List { path, start } => list(alloc, state, path, *start, steps),
        Op::SetPolicy {
            path,
            policy,
            nonce,
        } => set_policy(alloc, state, call.uid, path, policy, nonce, steps),
        Op::GetPolicy { path } => get_policy(alloc, state, path, steps),
        Op::ReadLink { path } => read_link(alloc, state, path, steps),
        Op::Mkdir { path, nonce } => mkdir(alloc, state, path, nonce, steps),
        Op::Create { path, nonce } => create(alloc, state, path, nonce, steps),
        Op::Symlink {
            path,
            target,
            nonce,
        } => symlink(alloc, state, path, target, nonce, steps),
        Op::Unlink { path } => unlink(alloc, state, path, steps),
        Op::Rmdir { path } => rmdir(alloc, state, path, steps),
        Op::Rename { old_path, new_path } => rename(alloc, state, old_path, new_path, steps),
        _ => unreachable!(),
    }
}
