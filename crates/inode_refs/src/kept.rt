//! Keys in boxes and pins, as they are stored.

ghost use Rattle.std.specs.Prelude.{◌≡◌, ◌+◌, ◌<◌, ◌^◌, ◌||◌, ◌==◌, not, true, false, length, filter};
ghost use Rattle.std.specs.Prelude.{is_some, is_none, option_map, IsTrue, IsSome, IsOk, OnOk, OnErr};
ghost use Rattle.std.specs.BTreeMap as tree;
ghost use Rattle.std.specs.FinMap as map;
ghost use Rattle.std.specs.Ordering.{nat_cmp};
ghost use Rattle.policy_ctx.specs.KeyIds.{same_id};
ghost use Rattle.fsc_keys.specs.Keys.{zeros_for};
ghost use Rattle.inode_refs.specs.declared.node_key.NodeKey.{NodeKey};
ghost use Rattle.inode_refs.specs.CacheMaps.{pins_at, with_pins, with_pinned_key};
ghost use Rattle.inode_refs.specs.CacheRules.{keys_of, pins_in, is_user};

use crate::cached_key::CachedKey;
use crate::node_key::NodeKey;
use fsc_keys::KeyId;
use key_counts as counts;
use std::alloc::{AllocError, Global};
use std::collections::BTreeMap;

/// The keys of nodes, each in a box of its own.
pub(crate) type Keys = BTreeMap<u32, Box<CachedKey>>;

// Whether the node has pins.
pub(crate) fn is_pinned(pins: &BTreeMap<u32, u32>, node: u32) -> bool
    ensures { result ≡ not (pins_at (pins_in pins.now.entries) node == 0) }
{
    counts::count_of(pins, &node) != 0
}

// The number of nodes with pins that have a key derived from this master key.
pub(crate) fn users_in(keys: &Keys, pins: &BTreeMap<u32, u32>, id: &KeyId) -> usize
    ensures counted { result ≡ length (filter (is_user (pins_in pins.now.entries) id.now) keys.now.entries) }
    ensures ordered { tree.IsOrdered nat_cmp keys.now }
{
    keys.iter()
        .filter(|(node, kept)| is_pinned(pins, **node) && kept.id() == *id)
        .count()
}

// Returns whether the key was derived from another master key. One that wasn't is wiped.
pub(crate) fn stays_for(kept: &mut Box<CachedKey>, id: &KeyId) -> bool
    ensures stays { result ≡ not (same_id kept.old.value.id id.now) }
    ensures same { IsTrue result → kept.new ≡ kept.old }
{
    if kept.id() != *id {
        return true;
    }
    kept.wipe();
    false
}

// Wipes the key, and returns that it is to be removed.
pub(crate) fn goes(kept: &mut Box<CachedKey>) -> bool
    ensures { result ≡ false }
{
    kept.wipe();
    false
}

// Wipes the key of the node, and removes it.
pub(crate) fn forget(keys: &mut Keys, node: u32)
    ensures { keys_of keys.new.entries ≡ map.remove (keys_of keys.old.entries) node }
{
    match keys.remove(&node) {
        Some(mut kept) => kept.wipe(),
        None => {}
    }
}

// Wipes in place a key that isn't cached.
pub(crate) fn discard(key: &mut Option<NodeKey>)
    ensures { key.new ≡ option_map (λ (kept : NodeKey). record kept { key = zeros_for kept.key }) key.old }
{
    if let Some(key) = key {
        key.key.wipe();
    }
}

// Caches the key of the node, in the place of the one before.
pub(crate) fn cache_in(
    keys: &mut Keys,
    alloc: Global,
    node: u32,
    key: NodeKey,
) -> Result<(), AllocError>
    ensures kept { OnOk result (keys_of keys.new.entries ≡ map.insert (keys_of keys.old.entries) node key) }
    ensures as_before { OnErr result (keys_of keys.new.entries ≡ keys_of keys.old.entries) }
    ensures cached { IsSome (map.get (keys_of keys.old.entries) node) → IsOk result }
{
    if let Some(kept) = keys.get_mut(&node) {
        kept.wipe();
        **kept = CachedKey::of(key);
        return Ok(());
    }
    let boxed = match Box::new(alloc, CachedKey::of(key)) {
        Ok(boxed) => boxed,
        Err(mut refused) => {
            refused.value.wipe();
            return Err(AllocError);
        }
    };
    match keys.insert(node, boxed) {
        Ok(_) => Ok(()),
        Err(refused) => {
            let (_, mut boxed) = refused.value;
            boxed.wipe();
            Err(AllocError)
        }
    }
}

// Caches `key` if the node has none.
pub(crate) fn give_in(
    keys: &mut Keys,
    alloc: Global,
    node: u32,
    mut key: Option<NodeKey>,
) -> Result<(), AllocError>
    ensures given { OnOk result
        (keys_of keys.new.entries ≡ with_pinned_key (keys_of keys.old.entries) node key) }
    ensures as_before { OnErr result (keys_of keys.new.entries ≡ keys_of keys.old.entries) }
    ensures again { (is_some (map.get (keys_of keys.old.entries) node) || is_none key) ≡ true → IsOk result }
{
    if keys.contains_key(&node) {
        discard(&mut key);
        return Ok(());
    }
    match key {
        Some(key) => cache_in(keys, alloc, node, key),
        None => Ok(()),
    }
}

// Pins the node once more, and caches `key` if the node has none. It takes no memory if the node has pins
// and no key is added.
pub(crate) fn pin_in(
    keys: &mut Keys,
    pins: &mut BTreeMap<u32, u32>,
    alloc: Global,
    node: u32,
    key: Option<NodeKey>,
) -> Result<(), AllocError>
    requires { pins_at (pins_in pins.old.entries) node + 1 < 2 ^ 32 }
    ensures given { OnOk result
        (keys_of keys.new.entries ≡ with_pinned_key (keys_of keys.old.entries) node key) }
    ensures pinned { OnOk result (pins_in pins.new.entries
        ≡ with_pins (pins_in pins.old.entries) node (pins_at (pins_in pins.old.entries) node + 1)) }
    ensures keys { OnErr result (keys_of keys.new.entries ≡ keys_of keys.old.entries) }
    ensures pins { OnErr result (pins_in pins.new.entries ≡ pins_in pins.old.entries) }
    ensures again { (pins_at (pins_in pins.old.entries) node == 0) ≡ false
        → (is_some (map.get (keys_of keys.old.entries) node) || is_none key) ≡ true → IsOk result }
{
    let cached = keys.contains_key(&node);
    give_in(keys, alloc, node, key)?;
    if counts::one_more(pins, node).is_err() {
        if !cached {
            forget(keys, node);
        }
        return Err(AllocError);
    }
    Ok(())
}
