//! The call that moves a name: within a directory, or to another one.

ghost use Rattle.std.specs.Prelude.{◌≡◌, ◌+◌, ◌≤◌, ◌++◌, true, length, IfErr, IfOk};
ghost use Rattle.dentry_cache.specs.HeldNames.{HoldsNoMore};
ghost use Rattle.disk_tree.specs.DiskTree.{IsDirAt};
ghost use Rattle.plain_tree.specs.Nodes.{Name};
ghost use Rattle.mount_model.specs.Carried.{IsPath};
ghost use Rattle.mount_model.specs.ClaimHistory.{is_refused};
ghost use Rattle.mount_model.specs.EntryPaths.{parent_parts};
ghost use Rattle.mount_model.specs.PlainMount.{PlainMount};
ghost use Rattle.mount_model.specs.AnswerForms.{refusal_with};
ghost use Rattle.mount_model.specs.RenameAnswer.{answer_to_move_from, answer_to_rename};
ghost use Rattle.mount_state.specs.PassedEntries.{CachesOnly, CachesPassed, passed_entries};
ghost use Rattle.mount_state.specs.SameButCaches.{SameButCaches, StaysFor};
ghost use Rattle.mount_state.specs.Represents.{Represents};
ghost use Rattle.mount_names.specs.FoundEntries.{IsEntryOn};
ghost use Rattle.mount_state.specs.AnswerOf.{IsAnswerOrNoMemory, IsExpectedRefusal};
ghost use Rattle.mount_names.specs.Moves.{IsTargetAt, Moves, RefusesAsModel, Renames};
ghost use Rattle.mount_names.specs.Removals.{IsEntryOf};
ghost use Rattle.mount_names.specs.SameButTree.{SameButTree};
ghost use Rattle.mount_names.specs.Places.{IsBlank};

use crate::entries::{Entry, entry_at};
use crate::places::Place;
use crate::stored_names::NameBuffer;
use crate::targets::target_in;
use mount_model::{Path, Refusal, Reply};
use mount_state::{MountState, last_bytes, walk_parent_past};
use name_crypt::{MAX_NAME_BYTES, Steps};
use std::alloc::Global;
use std::sync::ledger::Ledger;

/// Moves the node at the end of the old path to the name and place of the new path. The node retains its
/// number, its policy, its contents and its entries, and its handles stay open on it.
///
/// Refused, in this order:
/// - Inval for the root in either path;
/// - as the walk to the old directory is, then NoKey if that directory is locked, then NotFound;
/// - as the walk to the new directory is, then NoKey if that directory is locked;
/// - Exists;
/// - Inval if the node is a directory that would be moved into itself;
/// - XDev if the new directory has a policy that the node has not;
/// - NoKeyClash;
/// - NoSpace if the new directory is another one and full;
/// - NoMemory, after which nothing is changed.
pub fn rename<L: Ledger>(
    alloc: Global,
    state: &mut MountState,
    old_path: &Path,
    new_path: &Path,
    steps: &mut Steps<L>,
) -> Reply
    ensures represents { (m : PlainMount) → Represents state.old m → IsPath old_path.now → IsPath new_path.now
        → IsAnswerOrNoMemory m (answer_to_rename m old_path.now new_path.now) result state.new }
    ensures due { (m : PlainMount) → Represents state.old m → IsPath old_path.now → IsPath new_path.now
        → IsExpectedRefusal (answer_to_rename m old_path.now new_path.now) result }
    ensures refused { is_refused result ≡ true → SameButCaches state.old state.new }
    ensures same { SameButTree state.old state.new }
    ensures ticks { steps.new ≤ steps.old + length old_path.now + length new_path.now }
    ensures brought { (m : PlainMount) → Represents state.old m → CachesOnly state.old.names state.new.names
        (passed_entries m 0 (parent_parts old_path.now) ++ passed_entries m 0 (parent_parts new_path.now)) }
{
    if old_path.is_empty() || new_path.is_empty() {
        return Reply::Refused(Refusal::Inval);
    }
    let mut room = [0; MAX_NAME_BYTES];
    match entry_at(alloc, state, old_path, true, &mut room, steps) {
        Ok(entry) => rename_entry(alloc, state, &entry, last_bytes(old_path), new_path, steps),
        Err(refusal) => Reply::Refused(refusal),
    }
}

// Moves the entry, whose name was found by the part, to the end of the new path.
fn rename_entry<L: Ledger>(
    alloc: Global,
    state: &mut MountState,
    entry: &Entry,
    part: &[u8],
    new_path: &Path,
    steps: &mut Steps<L>,
) -> Reply
    requires some { 1 ≤ length new_path.now }
    requires there { IsEntryOn state.old.disk entry.now }
    requires short { length part.now ≤ MAX_NAME_BYTES }
    ensures represents { Renames state.old state.new entry.now part.now new_path.now result }
    ensures due { RefusesAsModel state.old entry.now new_path.now result }
    ensures refused { is_refused result ≡ true → SameButCaches state.old state.new }
    ensures same { SameButTree state.old state.new }
    ensures ticks { steps.new ≤ steps.old + length new_path.now }
    ensures brought { CachesPassed state.old state.new (parent_parts new_path.now) }
{
    let mut room = [0; MAX_NAME_BYTES];
    match target_at(alloc, state, entry, new_path, &mut room, steps) {
        Ok(place) => move_to(alloc, state, entry, part, &place),
        Err(refusal) => Reply::Refused(refusal),
    }
}

// Returns the place of the new path's last part, if the entry can be moved to it.
fn target_at<'a, L: Ledger>(
    alloc: Global,
    state: &mut MountState,
    entry: &Entry,
    path: &'a Path,
    room: &'a mut NameBuffer,
    steps: &mut Steps<L>,
) -> Result<Place<'a>, Refusal>
    requires some { 1 ≤ length path.now }
    requires blank { IsBlank room.old }
    ensures refused { IfErr result (λ refusal. (m : PlainMount) (old : Name) → Represents state.old m
        → IsPath path.now → IsEntryOf m old entry.now
        → answer_to_move_from m path.now entry.now.dir old entry.now.number ≡ refusal_with m refusal) }
    ensures placed { IfOk result (λ place. (m : PlainMount) (old : Name) → Represents state.old m
        → IsPath path.now → IsEntryOf m old entry.now → IsTargetAt m entry.now path.now place) }
    ensures dir { IfOk result (λ place. IsDirAt state.new.disk place.dir) }
    ensures represents { StaysFor state.old state.new }
    ensures same { SameButCaches state.old state.new }
    ensures ticks { steps.new ≤ steps.old + length path.now }
    ensures brought { CachesPassed state.old state.new (parent_parts path.now) }
{
    match walk_parent_past(alloc, state, path, entry.number, steps) {
        Ok((dir, past)) => target_in(state, entry, dir, past, last_bytes(path), room, steps),
        Err(refusal) => Err(refusal),
    }
}

// Moves the entry, whose name was found by the part, to its new place, and removes its cached name. On
// failure the entry stays at its old place.
fn move_to(
    alloc: Global,
    state: &mut MountState,
    entry: &Entry,
    part: &[u8],
    place: &Place,
) -> Reply
    requires dir { IsDirAt state.old.disk place.now.dir }
    requires there { IsEntryOn state.old.disk entry.now }
    requires short { length part.now ≤ MAX_NAME_BYTES }
    ensures represents { Moves state.old state.new entry.now part.now place.now result }
    ensures refused { is_refused result ≡ true → SameButCaches state.old state.new }
    ensures same { SameButTree state.old state.new }
    ensures no_more { HoldsNoMore state.old.names state.new.names }
{
    match state
        .disk
        .move_entry(alloc, entry.dir, entry.stored, place.dir, place.stored)
    {
        Ok(()) => {
            state.names.forget(entry.dir, part);
            Reply::Done
        }
        Err(_) => Reply::Refused(Refusal::NoMemory),
    }
}
