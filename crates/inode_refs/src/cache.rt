//! The cache of keys and pins by node.

ghost use Rattle.std.specs.Prelude.{◌≡◌, ◌+◌, ◌-◌, ◌<◌, ◌^◌, ◌||◌, true, false};
ghost use Rattle.std.specs.Prelude.{option_copied, is_some, is_none, IsSome, IfSome, IsOk, OnOk, OnErr};
ghost use Rattle.std.specs.Option.{option_map};
ghost use Rattle.std.specs.FinMap as map;
ghost use Rattle.byte_words.specs.Bytes.{AreBytes};
ghost use Rattle.inode_refs.specs.CacheMaps.{no_cache, key_at, pins_of, with_pins, with_pinned_key};
ghost use Rattle.inode_refs.specs.Evictions.{users_of, is_unpinned, without_derived_keys, without_unpinned_keys};
ghost use Rattle.inode_refs.specs.Ciphers.{names_key_at};
ghost use Rattle.inode_refs.specs.KeyUsers.{id_at};

use crate::kept::{Keys, cache_in, discard, forget, goes, is_pinned, pin_in, stays_for, users_in};
use crate::node_key::NodeKey;
use crate::users::Users;
use aes_core::Aes256;
use fsc_keys::{FileKey, KeyId};
use key_counts as counts;
use std::alloc::{AllocError, Global};
use std::collections::BTreeMap;
use std::marker::Model;

/// The cache of nodes, seen as the finite maps of their keys and of their pins. A key that is removed is
/// wiped first.
///
/// A node is found, and a master key's users are counted, in a time that grows with the logarithm of
/// their number. An eviction goes over all nodes with a key, and so does `users_of` once its counts were
/// out of memory.
pub struct InodeCache {
    keys: Keys,
    pins: BTreeMap<u32, u32>,
    // The number of nodes with pins that have a key, by master key.
    users: Users,
}

// Written, not derived, so that a crate that drops a cache needn't prove how that is done.
impl Drop for InodeCache {
    fn drop(self) {
        let InodeCache {
            keys: _,
            pins: _,
            users: _,
        } = self;
    }
}

impl Model for InodeCache {
    ghost use Rattle.std.specs.Prelude.{refl};
    ghost use Rattle.std.specs.Coded.{code_by, coded×, coded_ℕ};
    ghost use Rattle.std.specs.FinMap.{code};
    ghost use Rattle.inode_refs.specs.contracts.node_key.NodeKey as key;
    ghost use Rattle.inode_refs.specs.CacheMaps.{Cache, KeyMap, PinMap};
    ghost use Rattle.inode_refs.specs.CacheRules.{keys_of, pins_in};
    ghost use Rattle.inode_refs.specs.Users.{IsConsistentCache};

    ghost Value = { Cache };

    ghost coded = { code_by (KeyMap × PinMap)
        (coded× (code coded_ℕ key.the_row.coded) (code coded_ℕ coded_ℕ))
        (λ cache. (cache.keys, cache.pins))
        (λ pair. record { keys = pair.0; pins = pair.1 })
        (λ _. refl) };

    ghost view = { λ c. record { keys = keys_of c.keys.entries; pins = pins_in c.pins.entries } };

    ghost invariant = { λ c. IsConsistentCache c.users
        (record { keys = keys_of c.keys.entries; pins = pins_in c.pins.entries }) };
}

impl InodeCache {
    /// Returns an empty cache. It takes no memory before the first pin or key.
    pub fn new(alloc: Global) -> InodeCache
        ensures { result ≡ no_cache }
    {
        InodeCache {
            keys: BTreeMap::new(alloc),
            pins: BTreeMap::new(alloc),
            users: Users::new(alloc),
        }
    }

    /// Returns how often the node is pinned.
    pub fn pins(&self, node: u32) -> u32
        ensures { result ≡ pins_of self.now node }
    {
        counts::count_of(&self.pins, &node)
    }

    /// Returns the key of the node, if one is cached.
    pub fn key_of(&self, node: u32) -> Option<&FileKey>
        ensures { option_copied result ≡ option_map (λ key. key.key) (key_at self.now node) }
    {
        match self.keys.get(&node) {
            Some(kept) => Some(kept.key()),
            None => None,
        }
    }

    /// Returns the cipher of the node's names, if a names key is cached. Its round keys are made once,
    /// when the key is cached.
    pub fn cipher_of(&self, node: u32) -> Option<&Aes256>
        ensures value { option_copied result ≡ names_key_at self.now node }
        ensures ranged { IfSome result (λ cipher. AreBytes cipher.now) }
    {
        match self.keys.get(&node) {
            Some(kept) => kept.cipher(),
            None => None,
        }
    }

    /// Returns how many nodes with pins have a key that was derived from this master key.
    pub fn users_of(&self, id: &KeyId) -> usize
        ensures { result ≡ users_of self.now id.now }
    {
        match self.users.count(id) {
            Some(count) => count as usize,
            None => users_in(&self.keys, &self.pins, id),
        }
    }

    // The identifier of the node's key.
    pub(crate) fn id_at(&self, node: u32) -> Option<KeyId>
        ensures { result ≡ id_at self.now node }
    {
        match self.keys.get(&node) {
            Some(kept) => Some(kept.id()),
            None => None,
        }
    }

    /// Caches the key of the node, in the place of the one before. Only a node without a key takes
    /// memory. If it is out of memory, all is as before, and the key is wiped.
    pub fn keep(
        &mut self,
        alloc: Global,
        node: u32,
        id: KeyId,
        key: FileKey,
    ) -> Result<(), AllocError>
        ensures kept { OnOk result (self.new
            ≡ record self.old { keys = map.insert self.old.keys node (record { id = id; key = key }) }) }
        ensures as_before { OnErr result (self.new ≡ self.old) }
        ensures cached { IsSome (key_at self.old node) → IsOk result }
    {
        let key = NodeKey { id, key };
        if self.pins(node) == 0 {
            return cache_in(&mut self.keys, alloc, node, key);
        }
        self.keep_counted(alloc, node, key)
    }

    // The same if the node has pins.
    fn keep_counted(&mut self, alloc: Global, node: u32, mut key: NodeKey) -> Result<(), AllocError>
        requires { is_unpinned self.old node ≡ false }
        ensures kept { OnOk result (self.new ≡ record self.old { keys = map.insert self.old.keys node key }) }
        ensures as_before { OnErr result (self.new ≡ self.old) }
        ensures cached { IsSome (key_at self.old node) → IsOk result }
    {
        if let Some(older) = self.id_at(node) {
            self.users.exchange(older, key.id);
            return cache_in(&mut self.keys, alloc, node, key);
        }
        let id = Some(key.id);
        if self.users.more(id).is_err() {
            key.key.wipe();
            return Err(AllocError);
        }
        if cache_in(&mut self.keys, alloc, node, key).is_err() {
            self.users.less(id);
            return Err(AllocError);
        }
        Ok(())
    }

    /// Wipes the key of the node and removes it. It takes no memory.
    pub fn drop_key(&mut self, node: u32)
        ensures { self.new ≡ record self.old { keys = map.remove self.old.keys node } }
    {
        let user = self.user_at(node);
        self.users.less(user);
        forget(&mut self.keys, node);
    }

    /// Pins the node once more, and caches `key` if the node has none. With the pin removed again the
    /// pins are as before. If it is out of memory, all is as before. A key that isn't cached is wiped. It
    /// takes no memory if the node has pins, and has a key or gets none.
    pub fn pin(
        &mut self,
        alloc: Global,
        node: u32,
        mut key: Option<NodeKey>,
    ) -> Result<(), AllocError>
        requires { pins_of self.old node + 1 < 2 ^ 32 }
        ensures pinned { OnOk result (self.new ≡ record {
          keys = with_pinned_key self.old.keys node key;
          pins = with_pins self.old.pins node (pins_of self.old node + 1);
        }) }
        ensures kept { OnErr result (self.new ≡ self.old) }
        ensures back { OnOk result (with_pins self.new.pins node (pins_of self.old node) ≡ self.old.pins) }
        ensures again { is_unpinned self.old node ≡ false
            → (is_some (key_at self.old node) || is_none key) ≡ true → IsOk result }
    {
        let user = self.coming(node, &key);
        if self.users.more(user).is_err() {
            discard(&mut key);
            return Err(AllocError);
        }
        if pin_in(&mut self.keys, &mut self.pins, alloc, node, key).is_err() {
            self.users.less(user);
            return Err(AllocError);
        }
        Ok(())
    }

    /// Removes one pin of the node. Its key remains cached. It takes no memory.
    pub fn unpin(&mut self, node: u32)
        requires { 0 < pins_of self.old node }
        ensures { self.new
            ≡ record self.old { pins = with_pins self.old.pins node (pins_of self.old node - 1) } }
    {
        let user = self.leaving(node);
        self.users.less(user);
        counts::one_less(&mut self.pins, &node);
    }

    /// Wipes and removes the keys that were derived from this master key, on the nodes without pins. It
    /// takes no memory.
    pub fn evict_unpinned(&mut self, id: &KeyId)
        ensures { self.new ≡ record self.old { keys = without_derived_keys self.old id.now } }
    {
        let pins = &self.pins;
        self.keys
            .retain(|node, kept| is_pinned(pins, *node) || stays_for(kept, id));
    }

    /// Wipes and removes all keys on the nodes without pins. It takes no memory.
    pub fn evict_all_unpinned(&mut self)
        ensures { self.new ≡ record self.old { keys = without_unpinned_keys self.old } }
    {
        let pins = &self.pins;
        self.keys
            .retain(|node, kept| is_pinned(pins, *node) || goes(kept));
    }
}
