//! The keys of modes: each is held exactly when it has users.

ghost use Rattle.std.specs.Prelude.{◌≡◌, ◌+◌, ◌<◌, ◌≤◌, ◌^◌, IsSome, IsOk, OnOk, OnErr, option_copied};
ghost use Rattle.std.specs.Option.{option_map};
ghost use Rattle.std.specs.FinMap as map;
ghost use Rattle.key_ring.specs.Modes.{no_modes, of_kind, with_kind, mode_at};
ghost use Rattle.key_ring.specs.ModeUsers.{users_in, users_of, with_users, without_user, AreUsed};
ghost use Rattle.key_ring.specs.KeptModes.{modes_of};

use super::mode_key::ModeKey;
use fsc_keys::{FileKey, KeyId, KeyKind};
use std::alloc::{AllocError, Global};
use std::collections::BTreeMap;
use std::marker::Model;

/// The mode keys of one kind, each in a box of its own.
type Kept = BTreeMap<KeyId, Box<ModeKey>>;

/// Mode keys by identifier and kind, seen as the finite maps of the two kinds. A key is held exactly when
/// it has users, and is wiped when it is removed.
///
/// The time of every call grows with the logarithm of the number of keys.
pub struct ModeKeys {
    contents: Kept,
    names: Kept,
}

// Written, and not derived, so that a crate that lets one go needn't prove how that is done.
impl Drop for ModeKeys {
    fn drop(self) {
        let ModeKeys {
            contents: _,
            names: _,
        } = self;
    }
}

impl Model for ModeKeys {
    ghost use Rattle.std.specs.Prelude.{refl};
    ghost use Rattle.std.specs.Coded.{code_by, coded×};
    ghost use Rattle.std.specs.FinMap.{code};
    ghost use Rattle.policy_ctx.specs.contracts.policy.KeyId as key;
    ghost use Rattle.key_ring.specs.contracts.mode_key.ModeKey as mode;
    ghost use Rattle.key_ring.specs.Modes.{Modes, ModeMap};
    ghost use Rattle.key_ring.specs.ModeUsers.{AreUsed};
    ghost use Rattle.key_ring.specs.KeptModes.{modes_of};

    ghost Value = { Modes };

    ghost coded = { code_by (ModeMap × ModeMap)
        (coded× (code key.the_row.coded mode.the_row.coded) (code key.the_row.coded mode.the_row.coded))
        (λ modes. (modes.contents, modes.names))
        (λ pair. record { contents = pair.0; names = pair.1 })
        (λ _. refl) };

    ghost view = { λ m. record { contents = modes_of m.contents.entries; names = modes_of m.names.entries } };

    ghost invariant = { λ m. AreUsed
        (record { contents = modes_of m.contents.entries; names = modes_of m.names.entries }) };
}

impl ModeKeys {
    /// No mode keys. It takes no memory before the first one is held.
    pub fn new(alloc: Global) -> ModeKeys
        ensures { result ≡ no_modes }
    {
        ModeKeys {
            contents: BTreeMap::new(alloc),
            names: BTreeMap::new(alloc),
        }
    }

    /// Adds users to the mode key, or holds it with these users if it isn't held yet. If it is held, the
    /// held key stays, no memory is taken, and the passed one is wiped. If there is no memory, the passed
    /// key is wiped too, and all is as before.
    pub fn hold(
        &mut self,
        alloc: Global,
        id: &KeyId,
        kind: KeyKind,
        key: FileKey,
        users: u32,
    ) -> Result<(), AllocError>
        requires some { 1 ≤ users }
        requires fit { users_of self.old id.now + users < 2 ^ 32 }
        ensures held { OnOk result
            (self.new ≡ with_kind self.old kind (with_users (of_kind self.old kind) id.now key users)) }
        ensures kept { OnErr result (self.new ≡ self.old) }
        ensures represents { IsSome (mode_at self.old id.now kind) → IsOk result }
    {
        match kind {
            KeyKind::Contents => hold_in(&mut self.contents, alloc, id, key, users),
            KeyKind::Names => hold_in(&mut self.names, alloc, id, key, users),
        }
    }

    /// Removes one user of the mode key. With the last one the key is wiped and removed. Takes no memory.
    pub fn release(&mut self, id: &KeyId, kind: KeyKind)
        requires { 1 ≤ users_in (of_kind self.old kind) id.now }
        ensures { self.new ≡ with_kind self.old kind (without_user (of_kind self.old kind) id.now) }
    {
        match kind {
            KeyKind::Contents => release_in(&mut self.contents, id),
            KeyKind::Names => release_in(&mut self.names, id),
        }
    }

    /// Returns the mode key of the identifier and kind, if it has users.
    pub fn key_of(&self, id: &KeyId, kind: KeyKind) -> Option<&FileKey>
        ensures { option_copied result ≡ option_map (λ mode. mode.key) (mode_at self.now id.now kind) }
    {
        match kind {
            KeyKind::Contents => key_in(&self.contents, id),
            KeyKind::Names => key_in(&self.names, id),
        }
    }

    /// How many users the mode keys of the identifier have, over both kinds.
    pub fn users_of(&self, id: &KeyId) -> u32
        ensures count { result ≡ users_of self.now id.now }
        ensures used { AreUsed self.now }
    {
        count_in(&self.contents, id) + count_in(&self.names, id)
    }
}

// The mode key of the identifier.
fn key_in<'a>(modes: &'a Kept, id: &KeyId) -> Option<&'a FileKey>
    ensures { option_copied result
        ≡ option_map (λ mode. mode.key) (map.get (modes_of modes.now.entries) id.now) }
{
    match modes.get(id) {
        Some(mode) => Some(&mode.key),
        None => None,
    }
}

// How many users the mode key has.
fn count_in(modes: &Kept, id: &KeyId) -> u32
    ensures { result ≡ users_in (modes_of modes.now.entries) id.now }
{
    match modes.get(id) {
        Some(mode) => mode.users,
        None => 0,
    }
}

// Adds users to the mode key, or makes it.
fn hold_in(
    modes: &mut Kept,
    alloc: Global,
    id: &KeyId,
    mut key: FileKey,
    users: u32,
) -> Result<(), AllocError>
    requires { users_in (modes_of modes.old.entries) id.now + users < 2 ^ 32 }
    ensures held { OnOk result
        (modes_of modes.new.entries ≡ with_users (modes_of modes.old.entries) id.now key users) }
    ensures kept { OnErr result (modes_of modes.new.entries ≡ modes_of modes.old.entries) }
    ensures represents { IsSome (map.get (modes_of modes.old.entries) id.now) → IsOk result }
{
    let total = count_in(modes, id) + users;
    if let Some(mode) = modes.get_mut(id) {
        key.wipe();
        mode.users = total;
        return Ok(());
    }
    let mode = match Box::new(alloc, ModeKey { key, users }) {
        Ok(mode) => mode,
        Err(mut refused) => {
            refused.value.key.wipe();
            return Err(AllocError);
        }
    };
    match modes.insert(*id, mode) {
        Ok(_) => Ok(()),
        Err(refused) => {
            let (_, mut mode) = refused.value;
            mode.key.wipe();
            Err(AllocError)
        }
    }
}

// Takes one user away, and the mode key with the last one.
fn release_in(modes: &mut Kept, id: &KeyId)
    requires { 1 ≤ users_in (modes_of modes.old.entries) id.now }
    ensures { modes_of modes.new.entries ≡ without_user (modes_of modes.old.entries) id.now }
{
    let left = count_in(modes, id) - 1;
    if left == 0 {
        if let Some(mut mode) = modes.remove(id) {
            mode.key.wipe();
        }
        return;
    }
    if let Some(mode) = modes.get_mut(id) {
        mode.users = left;
    }
}
