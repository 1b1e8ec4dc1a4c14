//! The calls that take a name away: of a file or a symlink, and of an empty directory.

ghost use Rattle.std.specs.Prelude.{◌≡◌, ◌+◌, ◌≤◌, true, false, length};
ghost use Rattle.dentry_cache.specs.HeldNames.{HoldsNoMore, HoldsNoneIn};
ghost use Rattle.mount_model.specs.Carried.{IsPath};
ghost use Rattle.mount_model.specs.ClaimHistory.{is_refused};
ghost use Rattle.mount_model.specs.EntryPaths.{parent_parts};
ghost use Rattle.mount_model.specs.UnlinkAnswers.{answer_to_unlink, answer_to_rmdir};
ghost use Rattle.mount_model.specs.PlainMount.{PlainMount};
ghost use Rattle.mount_state.specs.PassedEntries.{CachesPassed};
ghost use Rattle.mount_state.specs.SameButCaches.{SameButCaches};
ghost use Rattle.mount_state.specs.Represents.{Represents};
ghost use Rattle.mount_names.specs.FoundEntries.{IsEntryOn};
ghost use Rattle.mount_state.specs.AnswerOf.{IsAnswerOf};
ghost use Rattle.mount_names.specs.Removals.{Drops, Unlinks, RemovesDir};
ghost use Rattle.mount_names.specs.SameButTree.{SameButTree};

use crate::entries::{Entry, entry_at};
use mount_model::{Path, Refusal, Reply};
use mount_state::{MountState, last_bytes};
use name_crypt::{MAX_NAME_BYTES, Steps};
use std::alloc::Global;
use std::sync::ledger::Ledger;

/// Removes the name of the file or the symlink at the end of the path. If no handle is open on the node,
/// the node is removed too; else it stays, without name, for those handles.
///
/// Refused with IsDir for the root, then as the walk to the directory is, then with NotFound, and with
/// IsDir for a directory. Never fails for lack of memory, and encrypts only what the look-up of each part
/// encrypts.
pub fn unlink<L: Ledger>(
    alloc: Global,
    state: &mut MountState,
    path: &Path,
    steps: &mut Steps<L>,
) -> Reply
    ensures represents { (m : PlainMount) → Represents state.old m → IsPath path.now
        → IsAnswerOf (answer_to_unlink m path.now) result state.new }
    ensures refused { is_refused result ≡ true → SameButCaches state.old state.new }
    ensures same { SameButTree state.old state.new }
    ensures ticks { steps.new ≤ steps.old + length path.now }
    ensures brought { CachesPassed state.old state.new (parent_parts path.now) }
{
    if path.is_empty() {
        return Reply::Refused(Refusal::IsDir);
    }
    let mut room = [0; MAX_NAME_BYTES];
    match entry_at(alloc, state, path, false, &mut room, steps) {
        Ok(entry) => unlink_entry(state, &entry, last_bytes(path)),
        Err(refusal) => Reply::Refused(refusal),
    }
}

/// Removes the name of the empty directory at the end of the path, as `unlink` does a file's.
///
/// Refused with Inval for the root, then as the walk to the parent directory is, then with NotFound, with
/// NotDir for what is no directory, and with NotEmpty. Never fails for lack of memory.
pub fn rmdir<L: Ledger>(
    alloc: Global,
    state: &mut MountState,
    path: &Path,
    steps: &mut Steps<L>,
) -> Reply
    ensures represents { (m : PlainMount) → Represents state.old m → IsPath path.now
        → IsAnswerOf (answer_to_rmdir m path.now) result state.new }
    ensures refused { is_refused result ≡ true → SameButCaches state.old state.new }
    ensures same { SameButTree state.old state.new }
    ensures ticks { steps.new ≤ steps.old + length path.now }
    ensures brought { CachesPassed state.old state.new (parent_parts path.now) }
{
    if path.is_empty() {
        return Reply::Refused(Refusal::Inval);
    }
    let mut room = [0; MAX_NAME_BYTES];
    match entry_at(alloc, state, path, false, &mut room, steps) {
        Ok(entry) => remove_dir(state, &entry, last_bytes(path)),
        Err(refusal) => Reply::Refused(refusal),
    }
}

// Drops the entry, unless it resolves to a directory.
fn unlink_entry(state: &mut MountState, entry: &Entry, part: &[u8]) -> Reply
    requires there { IsEntryOn state.old.disk entry.now }
    requires short { length part.now ≤ MAX_NAME_BYTES }
    ensures represents { Unlinks state.old state.new entry.now part.now result }
    ensures refused { is_refused result ≡ true → SameButCaches state.old state.new }
    ensures same { SameButTree state.old state.new }
    ensures no_more { HoldsNoMore state.old.names state.new.names }
{
    if state.disk.is_dir(entry.number) {
        return Reply::Refused(Refusal::IsDir);
    }
    drop_entry(state, entry, part);
    Reply::Done
}

// Drops the entry, if it resolves to an empty directory.
fn remove_dir(state: &mut MountState, entry: &Entry, part: &[u8]) -> Reply
    requires there { IsEntryOn state.old.disk entry.now }
    requires short { length part.now ≤ MAX_NAME_BYTES }
    ensures represents { RemovesDir state.old state.new entry.now part.now result }
    ensures refused { is_refused result ≡ true → SameButCaches state.old state.new }
    ensures same { SameButTree state.old state.new }
    ensures no_more { HoldsNoMore state.old.names state.new.names }
{
    let Some(node) = state.disk.node(entry.number) else {
        return Reply::Refused(Refusal::NotDir);
    };
    if !node.body.is_dir() {
        return Reply::Refused(Refusal::NotDir);
    }
    if node.body.entry_count() > 0 {
        return Reply::Refused(Refusal::NotEmpty);
    }
    state.names.forget_dir(entry.number);
    drop_entry(state, entry, part);
    Reply::Done
}

// Removes the name, which was found by the part, and its cached name. If no handle is open on the node, its
// cached key is removed, and then the node.
fn drop_entry(state: &mut MountState, entry: &Entry, part: &[u8])
    requires there { IsEntryOn state.old.disk entry.now }
    requires short { length part.now ≤ MAX_NAME_BYTES }
    requires none { HoldsNoneIn state.old.names entry.now.number }
    ensures represents { Drops state.old state.new entry.now part.now }
    ensures same { SameButTree state.old state.new }
    ensures no_more { HoldsNoMore state.old.names state.new.names }
{
    state.names.forget(entry.dir, part);
    let number = entry.number;
    if state.inodes.pins(number) > 0 {
        state.disk.drop_entry(entry.dir, entry.stored);
        return;
    }
    state.inodes.drop_key(number);
    state.disk.remove_entry_and_node(entry.dir, entry.stored);
}
