//! The new place of a moved name: whether the directory can get it, and the name's stored form.

ghost use Rattle.std.specs.Prelude.{◌≡◌, ◌+◌, ◌≤◌, true, length, nat_le, None, Some, IfErr, IfOk};
ghost use Rattle.disk_tree.specs.DiskTree.{IsDirAt};
ghost use Rattle.plain_tree.specs.Nodes.{Name};
ghost use Rattle.plain_tree.specs.NodesByNumber.{children, context_at, is_dir_at};
ghost use Rattle.mount_model.specs.PlainMount.{PlainMount};
ghost use Rattle.mount_model.specs.MoveRefusal as plain;
ghost use Rattle.mount_model.specs.SoundNodes.{IsName};
ghost use Rattle.mount_state.specs.Represents.{Represents};
ghost use Rattle.mount_names.specs.NewPlaces.{IsNewName};
ghost use Rattle.mount_names.specs.Removals.{IsEntryOf};
ghost use Rattle.mount_names.specs.Places.{IsBlank};

use crate::contexts::{context_at, reported_context};
use crate::entries::Entry;
use crate::places::{Place, clashes, free_place};
use crate::stored_names::NameBuffer;
use mount_limits::MAX_CHILDREN;
use mount_model::Refusal;
use mount_state::MountState;
use name_crypt::Steps;
use policy_ctx::{Context, Policy, encode_policy};
use std::sync::ledger::Ledger;

// Returns the place of the name in the directory, if the entry can be moved to it. `past` is whether the
// walk to the directory passed the entry's node.
pub(crate) fn target_in<'a, L: Ledger>(
    state: &MountState,
    entry: &Entry,
    dir: u32,
    past: bool,
    part: &'a [u8],
    room: &'a mut NameBuffer,
    steps: &mut Steps<L>,
) -> Result<Place<'a>, Refusal>
    requires { IsBlank room.old }
    ensures refused { IfErr result (λ refusal. (m : PlainMount) (old : Name) → Represents state.now m
        → is_dir_at m.nodes dir ≡ true → IsName part.now → IsEntryOf m old entry.now
        → plain.move_refusal m entry.now.dir entry.now.number dir past part.now ≡ Some refusal) }
    ensures placed { IfOk result (λ place. (m : PlainMount) (old : Name) → Represents state.now m
        → is_dir_at m.nodes dir ≡ true → IsName part.now → IsEntryOf m old entry.now
        → IsNewName m dir part.now place
        × (plain.move_refusal m entry.now.dir entry.now.number dir past part.now ≡ None)) }
    ensures dir { IfOk result (λ place. (place.dir ≡ dir) × IsDirAt state.now.disk dir) }
    ensures ticks { steps.new ≤ steps.old + 1 }
{
    let Some(node) = state.disk.node(dir) else {
        return Err(Refusal::NotDir);
    };
    if !node.body.is_dir() {
        return Err(Refusal::NotDir);
    }
    if !state.keyed_as(dir, node) {
        return Err(Refusal::NoKey);
    }
    let context = reported_context(state, dir, node);
    match free_place(state, dir, node, context, part, room, steps) {
        Ok(place) => match why_not(state, entry, &place, past) {
            Some(refusal) => Err(refusal),
            None => Ok(place),
        },
        Err(refusal) => Err(refusal),
    }
}

// Returns why the entry can't be moved to that place, if it can't.
fn why_not(state: &MountState, entry: &Entry, place: &Place, past: bool) -> Option<Refusal>
    ensures { (m : PlainMount) (old name : Name) → Represents state.now m → IsName name
        → IsEntryOf m old entry.now → IsNewName m place.now.dir name place.now
        → result ≡ plain.move_refusal m entry.now.dir entry.now.number place.now.dir past name }
{
    if past {
        return Some(Refusal::Inval);
    }
    if !may_come(state, entry, place) {
        return Some(Refusal::XDev);
    }
    if clashes(state, place) {
        return Some(Refusal::NoKeyClash);
    }
    if is_full_elsewhere(state, entry.dir, place.dir) {
        return Some(Refusal::NoSpace);
    }
    None
}

// Whether the place's directory may contain the entry's node. It may if it contains it already: what is in
// a directory with a policy has that policy, and a directory without one may contain any node.
fn may_come(state: &MountState, entry: &Entry, place: &Place) -> bool
    ensures { (m : PlainMount) (old : Name) → Represents state.now m → IsEntryOf m old entry.now
        → place.now.context ≡ context_at m.nodes place.now.dir
        → result ≡ plain.may_hold (context_at m.nodes place.now.dir) (context_at m.nodes entry.now.number) }
{
    if place.dir == entry.dir {
        return true;
    }
    may_hold(&place.context, &context_at(state, entry.number))
}

// Whether a directory of the one context may contain a node of the other.
fn may_hold(dir: &Option<Context>, held: &Option<Context>) -> bool
    ensures { result ≡ plain.may_hold dir.now held.now }
{
    match dir {
        Some(context) => has_policy(&context.policy, held),
        None => true,
    }
}

fn has_policy(policy: &Policy, held: &Option<Context>) -> bool
    ensures { result ≡ plain.has_policy policy.now held.now }
{
    match held {
        Some(context) => encode_policy(&context.policy) == encode_policy(policy),
        None => false,
    }
}

// Whether the name would be moved to another directory that is full.
fn is_full_elsewhere(state: &MountState, from: u32, to: u32) -> bool
    ensures { (m : PlainMount) → Represents state.now m → result ≡ plain.is_full_elsewhere m from to }
{
    to != from && has_most_entries(state, to)
}

// Whether the directory has as many entries as one may have.
fn has_most_entries(state: &MountState, dir: u32) -> bool
    ensures { (m : PlainMount) → Represents state.now m
        → result ≡ nat_le MAX_CHILDREN (length (children m.nodes dir)) }
{
    state.disk.entry_count(dir) >= MAX_CHILDREN
}
