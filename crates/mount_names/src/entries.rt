//! The entry of a directory whose visible name, or name, is a part: the stored name, and its node.

ghost use Rattle.std.specs.Prelude.{◌≡◌, ◌+◌, ◌≤◌, ◌&&◌, not, true, Some, length, IfOk, OnOk};
ghost use Rattle.std.specs.Prelude.{option_copied, option_map};
ghost use Rattle.std.specs.Map.{lookup_entry};
ghost use Rattle.disk_tree.specs.Nodes.{entries_of};
ghost use Rattle.number_map.specs.Numbered.{get};
ghost use Rattle.plain_tree.specs.NodesByNumber.{is_dir_at};
ghost use Rattle.mount_model.specs.PlainMount.{PlainMount};
ghost use Rattle.mount_model.specs.States.{is_keyed};
ghost use Rattle.mount_model.specs.Walk.{visible_entry};
ghost use Rattle.mount_model.specs.EntryPaths.{last_part, parent_parts};
ghost use Rattle.mount_state.specs.PassedEntries.{CachesPassed};
ghost use Rattle.mount_state.specs.Resolution.{is_text_of};
ghost use Rattle.mount_state.specs.SameButCaches.{SameButCaches, StaysFor};
ghost use Rattle.mount_state.specs.Represents.{Represents};
ghost use Rattle.mount_names.specs.FoundEntries.{IsEntryOn, IsStoredFor, entry_end, entry_for_part};
ghost use Rattle.mount_names.specs.Places.{IsBlank};
ghost use Rattle.name_crypt.specs.declared.limits.TheConstants.{MAX_NAME_BYTES};

use crate::contexts::reported_context;
use crate::stored_names::{NameBuffer, stored_as};
use disk_tree::{Body, DirEntries, StoredNode};
use mount_model::{Path, Refusal};
use mount_state::{MountState, entry_of_visible_name, last_bytes, walked_parent};
use name_crypt::{MAX_NAME_BYTES, Steps, is_plain, names_come_back, shown_by};
use std::alloc::Global;
use std::marker::Model;
use std::sync::ledger::Ledger;

/// An entry: the directory, the name in its stored form, and the node that it resolves to.
#[derive(Drop)]
pub(crate) struct Entry<'a> {
    pub dir: u32,
    pub stored: &'a [u8],
    pub number: u32,
}

impl<'a> Model for Entry<'a> {
    ghost use Rattle.mount_names.specs.Places.{Entry};

    ghost Value = { Entry };

    ghost view = { λ e. record { dir = e.dir; stored = e.stored.now; number = e.number } };
}

// Returns the entry at the end of the path. Refused as the walk to its directory is, then with NotFound.
// With `by_name`, a locked directory has no entry, and is refused with NoKey before NotFound.
pub(crate) fn entry_at<'a, L: Ledger>(
    alloc: Global,
    state: &mut MountState,
    path: &'a Path,
    by_name: bool,
    room: &'a mut NameBuffer,
    steps: &mut Steps<L>,
) -> Result<Entry<'a>, Refusal>
    requires some { 1 ≤ length path.now }
    requires blank { IsBlank room.old }
    ensures value { (m : PlainMount) → Represents state.old m → result ≡ entry_end by_name m path.now }
    ensures there { IfOk result (IsEntryOn state.old.disk) }
    ensures short { OnOk result (length (last_part path.now) ≤ MAX_NAME_BYTES) }
    ensures represents { StaysFor state.old state.new }
    ensures same { SameButCaches state.old state.new }
    ensures ticks { steps.new ≤ steps.old + length path.now }
    ensures brought { CachesPassed state.old state.new (parent_parts path.now) }
{
    match walked_parent(alloc, state, path, steps) {
        Ok(dir) => entry_in(state, dir, last_bytes(path), by_name, room, steps),
        Err(refusal) => Err(refusal),
    }
}

// Returns the entry of the directory whose visible name is the part; with `by_name`, whose name is the
// part.
fn entry_in<'a, L: Ledger>(
    state: &MountState,
    dir: u32,
    part: &'a [u8],
    by_name: bool,
    room: &'a mut NameBuffer,
    steps: &mut Steps<L>,
) -> Result<Entry<'a>, Refusal>
    requires { IsBlank room.old }
    ensures found { (m : PlainMount) → Represents state.now m → is_dir_at m.nodes dir ≡ true
        → result ≡ entry_for_part by_name m part.now dir }
    ensures there { IfOk result (IsEntryOn state.now.disk) }
    ensures ticks { steps.new ≤ steps.old + 1 }
{
    // The directory exists, since the walk reached it.
    let Some(node) = state.disk.node(dir) else {
        return Err(Refusal::NotFound);
    };
    let keyed = state.keyed_as(dir, node);
    if is_barred(by_name, keyed) {
        return Err(Refusal::NoKey);
    }
    let Some(stored) = stored_shown(state, dir, node, keyed, part, room, steps) else {
        return Err(Refusal::NotFound);
    };
    match node.body.find(stored) {
        Some(number) => Ok(Entry {
            dir,
            stored,
            number,
        }),
        None => Err(Refusal::NotFound),
    }
}

// Whether an entry is looked up by its name although no name is visible.
fn is_barred(by_name: bool, keyed: bool) -> bool
    ensures { result ≡ (by_name && not keyed) }
{
    by_name && !keyed
}

// Returns the stored form of the name whose visible name is the part, in the directory that was looked up.
// In a keyed directory it takes one encryption. Otherwise it goes by the no-key text, and nothing is
// encrypted or decrypted. If no entry has this visible name, returns `None` or a form that resolves to no
// node.
fn stored_shown<'a, L: Ledger>(
    state: &MountState,
    dir: u32,
    node: &StoredNode,
    keyed: bool,
    part: &'a [u8],
    room: &'a mut NameBuffer,
    steps: &mut Steps<L>,
) -> Option<&'a [u8]>
    requires there { get state.now.disk dir ≡ Some node.now }
    requires blank { IsBlank room.old }
    ensures named { (m : PlainMount) → Represents state.now m → is_dir_at m.nodes dir ≡ true
        → keyed ≡ is_keyed m dir
        → IsStoredFor state.now.disk m dir (visible_entry m dir part.now) (option_copied result) }
    ensures ticks { steps.new ≤ steps.old + 1 }
{
    // That names are stored alike only if they are the same, and in 16 to 255 bytes.
    names_come_back();
    if !keyed {
        return stored_by_text(node, part, room);
    }
    if !is_plain(part) {
        return None;
    }
    let context = reported_context(state, dir, node);
    stored_as(state, dir, &context, part, room, steps)
}

// Returns the first stored name of the directory that has the text. Not inlined: the usual path would
// reserve stack space for it.
#[inline(never)]
fn stored_by_text<'a>(node: &StoredNode, text: &[u8], room: &'a mut NameBuffer) -> Option<&'a [u8]>
    ensures { option_copied result
        ≡ option_map (λ e. e.0) (lookup_entry (is_text_of text.now) (entries_of node.now.body)) }
{
    match &node.body {
        Body::Dir(entries) => name_by_text(entries, text, room),
        _ => None,
    }
}

// The same among these entries.
fn name_by_text<'a>(entries: &DirEntries, text: &[u8], room: &'a mut NameBuffer) -> Option<&'a [u8]>
    ensures { option_copied result
        ≡ option_map (λ e. e.0) (lookup_entry (is_text_of text.now) entries.now) }
{
    // That a text is found by the name that it spells, as stored names are bytes.
    entries.names_are_bytes();
    let Some(shown) = shown_by(text) else {
        return None;
    };
    match entry_of_visible_name(entries, shown.bytes()) {
        Some((stored, _number)) => Some(put(stored, room)),
        None => None,
    }
}

// Returns the name, copied to the buffer.
fn put<'a>(name: &[u8], room: &'a mut NameBuffer) -> &'a [u8]
    requires { length name.now ≤ MAX_NAME_BYTES }
    ensures { result.now ≡ name.now }
{
    let len = name.len();
    room[..len].copy_from_slice(name);
    &room[..len]
}
