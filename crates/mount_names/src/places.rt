//! The place of a new name: the directory, its context, and the name's stored form.

ghost use Rattle.std.specs.Prelude.{◌≡◌, ◌+◌, ◌<◌, ◌≤◌, ◌^◌, true, false, Some, is_some, length, nat_le, IfErr, IfOk};
ghost use Rattle.disk_tree.specs.DiskTree.{IsDirAt};
ghost use Rattle.number_map.specs.Numbered.{get, len};
ghost use Rattle.plain_tree.specs.Nodes.{Name};
ghost use Rattle.plain_tree.specs.NodesByNumber.{children, entry, is_dir_at};
ghost use Rattle.mount_model.specs.Carried.{IsPath};
ghost use Rattle.mount_model.specs.EncryptedNames as encrypted;
ghost use Rattle.mount_model.specs.EntryPaths.{parent_parts};
ghost use Rattle.mount_model.specs.NameAnswers as plain;
ghost use Rattle.mount_model.specs.PlainMount.{PlainMount};
ghost use Rattle.mount_model.specs.SoundNodes.{IsName};
ghost use Rattle.mount_state.specs.PassedEntries.{CachesPassed};
ghost use Rattle.mount_state.specs.SameButCaches.{SameButCaches, StaysFor};
ghost use Rattle.mount_state.specs.Represents.{Represents};
ghost use Rattle.mount_names.specs.NewEntries.{IsPlaceRefused, IsRefusedIn};
ghost use Rattle.mount_names.specs.NewPlaces.{IsAskedIn, IsNewName, IsPlaceAt, IsPlaceOf};
ghost use Rattle.mount_names.specs.Places.{IsBlank};

use crate::contexts::reported_context;
use crate::stored_names::{NameBuffer, shares_text, stored_as};
use disk_tree::StoredNode;
use mount_limits::{MAX_CHILDREN, MAX_NODES};
use mount_model::{Path, Refusal};
use mount_state::{MountState, last_bytes, walked_parent};
use name_crypt::{Steps, is_plain, names_come_back};
use policy_ctx::Context;
use std::alloc::Global;
use std::marker::Model;
use std::sync::ledger::Ledger;

/// A directory that gets a name: its number, its context, and the name in its stored form.
#[derive(Drop)]
pub(crate) struct Place<'a> {
    pub dir: u32,
    pub context: Option<Context>,
    pub stored: &'a [u8],
}

impl<'a> Model for Place<'a> {
    ghost use Rattle.mount_names.specs.Places.{Place};

    ghost Value = { Place };

    ghost view = { λ p. record { dir = p.dir; context = p.context; stored = p.stored.now } };
}

// Returns the place of the path's last part, if a node can be made there. Refused as a creation is for
// every cause but lack of memory. `long` is whether a target of too many bytes comes with it.
pub(crate) fn place_at<'a, L: Ledger>(
    alloc: Global,
    state: &mut MountState,
    path: &'a Path,
    long: bool,
    room: &'a mut NameBuffer,
    steps: &mut Steps<L>,
) -> Result<Place<'a>, Refusal>
    requires { IsBlank room.old }
    ensures refused { IfErr result (λ refusal. IsPlaceRefused state.old path.now long refusal) }
    ensures placed { IfOk result (λ place. (m : PlainMount) → Represents state.old m → IsPath path.now
        → IsPlaceAt m path.now place) }
    ensures dir { IfOk result (λ place. IsDirAt state.new.disk place.dir) }
    ensures short { IfOk result (λ _. long ≡ false) }
    ensures room { IfOk result (λ _. state.new.next_node + 1 < 2 ^ 32) }
    ensures represents { StaysFor state.old state.new }
    ensures same { SameButCaches state.old state.new }
    ensures ticks { steps.new ≤ steps.old + length path.now }
    ensures brought { CachesPassed state.old state.new (parent_parts path.now) }
{
    if path.is_empty() {
        return Err(Refusal::Exists);
    }
    match walked_parent(alloc, state, path, steps) {
        Ok(dir) => place_in(state, dir, last_bytes(path), long, room, steps),
        Err(refusal) => Err(refusal),
    }
}

// Returns the place of the name in the directory.
fn place_in<'a, L: Ledger>(
    state: &MountState,
    dir: u32,
    part: &'a [u8],
    long: bool,
    room: &'a mut NameBuffer,
    steps: &mut Steps<L>,
) -> Result<Place<'a>, Refusal>
    requires { IsBlank room.old }
    ensures refused { IfErr result (λ refusal. IsRefusedIn state.now dir part.now long refusal) }
    ensures placed { IfOk result (λ place. (m : PlainMount) → Represents state.now m
        → is_dir_at m.nodes dir ≡ true → IsName part.now → IsPlaceOf m part.now place) }
    ensures dir { IfOk result (λ place. (place.dir ≡ dir) × IsDirAt state.now.disk dir) }
    ensures short { IfOk result (λ _. long ≡ false) }
    ensures room { IfOk result (λ _. state.now.next_node + 1 < 2 ^ 32) }
    ensures ticks { steps.new ≤ steps.old + 1 }
{
    let Some(node) = state.disk.node(dir) else {
        return Err(Refusal::NotDir);
    };
    if !node.body.is_dir() {
        return Err(Refusal::NotDir);
    }
    let context = reported_context(state, dir, node);
    if lacks_key(state, &context) {
        return Err(Refusal::NoKey);
    }
    let place = match free_place(state, dir, node, context, part, room, steps) {
        Ok(place) => place,
        Err(refusal) => return Err(refusal),
    };
    if long {
        return Err(Refusal::NameTooLong);
    }
    if clashes(state, &place) {
        return Err(Refusal::NoKeyClash);
    }
    if is_full(state, dir, node) {
        return Err(Refusal::NoSpace);
    }
    Ok(place)
}

// Returns the place of the name in the directory, which was looked up, is keyed and has this context.
// Exists if there is such a name.
pub(crate) fn free_place<'a, L: Ledger>(
    state: &MountState,
    dir: u32,
    node: &StoredNode,
    context: Option<Context>,
    part: &'a [u8],
    room: &'a mut NameBuffer,
    steps: &mut Steps<L>,
) -> Result<Place<'a>, Refusal>
    requires there { get state.now.disk dir ≡ Some node.now }
    requires blank { IsBlank room.old }
    ensures refused { IfErr result (λ refusal. (m : PlainMount) → IsAskedIn state.now m dir context part.now
        → (refusal ≡ Refusal.Exists) × (is_some (entry m.nodes dir part.now) ≡ true)) }
    ensures placed { IfOk result (λ place. (m : PlainMount) → IsAskedIn state.now m dir context part.now
        → IsNewName m dir part.now place) }
    ensures dir { IfOk result (λ place. place.dir ≡ dir) }
    ensures ticks { steps.new ≤ steps.old + 1 }
{
    // That two names are stored alike only if they are the same.
    names_come_back();
    if !is_plain(part) {
        return Err(Refusal::Inval);
    }
    let Some(stored) = stored_as(state, dir, &context, part, room, steps) else {
        return Err(Refusal::NoKey);
    };
    if node.body.find(stored).is_some() {
        return Err(Refusal::Exists);
    }
    Ok(Place {
        dir,
        context,
        stored,
    })
}

// Whether the place's directory has a policy, and a name in it has the no-key text of the place's stored one,
// which isn't there itself.
pub(crate) fn clashes(state: &MountState, place: &Place) -> bool
    ensures { (m : PlainMount) (name : Name) → Represents state.now m → IsName name
        → IsNewName m place.now.dir name place.now → result ≡ encrypted.clashes m place.now.dir name }
{
    match &place.context {
        Some(_context) => shares_text(state, place.dir, place.stored),
        None => false,
    }
}

// Whether the directory has a policy whose key no user has claimed.
fn lacks_key(state: &MountState, context: &Option<Context>) -> bool
    ensures { (m : PlainMount) → Represents state.now m → result ≡ encrypted.lacks_key m context.now }
{
    match context {
        Some(context) => state.ring.claims().count_of_id(&context.policy.id) == 0,
        None => false,
    }
}

// Whether the directory, the mount or the numbers are used up.
fn is_full(state: &MountState, dir: u32, node: &StoredNode) -> bool
    requires { get state.now.disk dir ≡ Some node.now }
    ensures value { (m : PlainMount) → Represents state.now m → result ≡ plain.is_full m dir }
    ensures room { result ≡ false → state.now.next_node + 1 < 2 ^ 32 }
{
    has_most_in(state, dir, node) || (has_most_nodes(state) || state.next_node == u32::MAX)
}

// Whether the directory, which was looked up, has as many entries as one may have.
fn has_most_in(state: &MountState, dir: u32, node: &StoredNode) -> bool
    requires { get state.now.disk dir ≡ Some node.now }
    ensures { (m : PlainMount) → Represents state.now m
        → result ≡ nat_le MAX_CHILDREN (length (children m.nodes dir)) }
{
    node.body.entry_count() >= MAX_CHILDREN
}

fn has_most_nodes(state: &MountState) -> bool
    ensures { (m : PlainMount) → Represents state.now m → result ≡ nat_le MAX_NODES (len m.nodes) }
{
    state.disk.node_count() >= MAX_NODES
}
