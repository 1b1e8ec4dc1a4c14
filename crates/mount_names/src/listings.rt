//! The names of a directory, a page at a time.

ghost use Rattle.std.specs.Prelude.{◌≡◌, ◌+◌, ◌≤◌, List, length, map, IfOk};
ghost use Rattle.std.specs.List.{AllZip};
ghost use Rattle.mount_model.specs.ListAnswers.{answer_to_list, page_at};
ghost use Rattle.mount_model.specs.PlainMount.{PlainMount};
ghost use Rattle.mount_state.specs.AnswerOf.{IsAnswerOrNoMemory, IsReplyOrNoMemory, IsExpectedRefusal};
ghost use Rattle.mount_state.specs.PassedEntries.{CachesPassed};
ghost use Rattle.mount_state.specs.SameButCaches.{SameButCaches};
ghost use Rattle.mount_state.specs.Represents.{Represents};
ghost use Rattle.mount_names.specs.NamePages.{names_of, IsPageOf};
ghost use Rattle.mount_names.specs.VisibleNames.{ShowsAs};
ghost use Rattle.plain_tree.specs.Nodes.{Name};

use crate::packed_names::PackedNames;
use crate::pages::page_of;
use crate::reading::{Reading, push_visible_name, reading_of};
use disk_tree::{Body, DirEntries};
use mount_model::{Path, Refusal, Reply};
use mount_state::{MountState, walked_node};
use name_crypt::Steps;
use std::alloc::{AllocError, Global};
use std::sync::ledger::Ledger;

/// Returns the visible names of the directory at the end of the path, in the order of their bytes: at most
/// `MAX_LISTED` from number `start` on, counted from 0, and whether further ones follow. Refused as the
/// walk is, then with NotDir, and with NoMemory if there is no memory for the names.
///
/// Names are encrypted only on the walk. In a directory that is plain or locked nothing is decrypted. In a
/// keyed one each name is, under a cipher that is made once, since they are ordered by their visible names.
pub fn list<L: Ledger>(
    alloc: Global,
    state: &mut MountState,
    path: &Path,
    start: u32,
    steps: &mut Steps<L>,
) -> Reply
    ensures represents { (m : PlainMount) → Represents state.old m
        → IsAnswerOrNoMemory m (answer_to_list m path.now start) result state.new }
    ensures due { (m : PlainMount) → Represents state.old m
        → IsExpectedRefusal (answer_to_list m path.now start) result }
    ensures same { SameButCaches state.old state.new }
    ensures ticks { steps.new ≤ steps.old + length path.now }
    ensures brought { CachesPassed state.old state.new path.now }
{
    match walked_node(alloc, state, path, steps) {
        Ok(number) => page_reply(alloc, state, number, start),
        Err(refusal) => Reply::Refused(refusal),
    }
}

// Returns the page of the directory's names.
fn page_reply(alloc: Global, state: &MountState, dir: u32, start: u32) -> Reply
    ensures told { (m : PlainMount) → Represents state.now m
        → IsReplyOrNoMemory (page_at m start dir).reply result }
    ensures due { (m : PlainMount) → Represents state.now m → IsExpectedRefusal (page_at m start dir) result }
{
    let Some(node) = state.disk.node(dir) else {
        return Reply::Refused(Refusal::NotDir);
    };
    let Body::Dir(entries) = &node.body else {
        return Reply::Refused(Refusal::NotDir);
    };
    let mut reading = reading_of(state, dir);
    let page = page_read(alloc, &reading, entries, start);
    reading.wipe();
    match page {
        Ok(told) => told,
        Err(_) => Reply::Refused(Refusal::NoMemory),
    }
}

// Returns the page of the visible names of the entries. Those of a plain directory are its stored names.
fn page_read(
    alloc: Global,
    reading: &Reading,
    entries: &DirEntries,
    start: u32,
) -> Result<Reply, AllocError>
    ensures { IfOk result (IsPageOf reading.now entries.now start) }
{
    if let Reading::Plain = reading {
        let mut names = stored_names(alloc, entries)?;
        return page_of(alloc, &mut names, start);
    }
    let shown = shown_names(alloc, reading, entries)?;
    let mut names = shown.references(alloc)?;
    page_of(alloc, &mut names, start)
}

// Returns references to the stored names of the entries, in the order of the entries.
fn stored_names(alloc: Global, entries: &DirEntries) -> Result<Vec<&[u8]>, AllocError>
    ensures { IfOk result (λ names. names_of names.items ≡ map (λ e. e.0) entries.now) }
{
    let mut names = Vec::with_capacity(alloc, entries.len())?;
    'each: for entry in entries.iter() {
        names.push(entry.0.as_slice())?;
    }
    Ok(names)
}

// Returns the visible names of the entries, in the order of the entries.
fn shown_names(
    alloc: Global,
    reading: &Reading,
    entries: &DirEntries,
) -> Result<PackedNames, AllocError>
    ensures { IfOk result (λ shown. (names : List Name)
        → AllZip (λ e. ShowsAs reading.now e.0) entries.now names → shown ≡ names) }
{
    let mut shown = PackedNames::new(alloc, entries.len())?;
    'each: for entry in entries.iter() {
        push_visible_name(&mut shown, reading, entry.0.as_slice())?;
    }
    Ok(shown)
}
