//! The cache of names.

ghost use Rattle.std.specs.Prelude.{◌≡◌, ◌≤◌, [], length, Some, option_map, IfOk, OnOk, OnErr};
ghost use Rattle.std.specs.List.{find};
ghost use Rattle.dentry_cache.specs.Names.{no_names, with_pairs, key_of, cached_node, is_in};
ghost use Rattle.dentry_cache.specs.NameChanges.{with_used_name, with_cached_name, with_one_more_refused, without_cached_name, without_dir};
ghost use Rattle.dentry_cache.specs.HeldNames.{HoldsNoMore, HoldsBeside, HoldsNone, HoldsNoneIn};
ghost use Rattle.dentry_cache.specs.declared.limits.TheConstants.{MAX_CACHED_NAMES};

use crate::key::NameKey;
use crate::limits::{MAX_CACHED_NAME_BYTES, MAX_CACHED_NAMES};
use lru::LruCache;
use std::alloc::{AllocError, Global};
use std::marker::Model;
use std::num::NonZeroUsize;

/// Names with the nodes that they resolve to, at most `MAX_CACHED_NAMES`, in the order of their last use,
/// latest first; and how often a name was not cached, since there was no memory.
pub struct NameCache {
    pairs: LruCache<NameKey, u32>,
    refused: u64,
}

// Written, and not derived, so that a crate that lets one go needn't prove how that is done.
impl Drop for NameCache {
    fn drop(self) {
        let NameCache {
            pairs: _,
            refused: _,
        } = self;
    }
}

impl Model for NameCache {
    ghost use Rattle.std.specs.Prelude.{◌≡◌, ℕ, List, refl};
    ghost use Rattle.std.specs.Coded.{code_by, coded×, coded_list, coded_ℕ};
    ghost use Rattle.dentry_cache.specs.contracts.key.NameKey as key;
    ghost use Rattle.dentry_cache.specs.declared.limits.TheConstants.{MAX_CACHED_NAMES};
    ghost use Rattle.dentry_cache.specs.Names.{NameList, Pair};

    ghost Value = { NameList };

    ghost coded = { code_by (List Pair × ℕ)
        (coded× (coded_list (coded× key.the_row.coded coded_ℕ)) coded_ℕ)
        (λ names. (names.pairs, names.refused))
        (λ parts. record { pairs = parts.0; refused = parts.1 })
        (λ _. refl) };

    ghost view = { λ c. record { pairs = c.pairs.entries; refused = c.refused } };

    ghost invariant = { λ c. c.pairs.cap ≡ MAX_CACHED_NAMES };
}

impl NameCache {
    /// No names. It takes memory for two ends of a list.
    pub fn new(alloc: Global) -> Result<NameCache, AllocError>
        ensures { IfOk result (λ names. names ≡ no_names) }
    {
        let Some(most) = NonZeroUsize::new(MAX_CACHED_NAMES) else {
            unreachable!()
        };
        Ok(NameCache {
            pairs: LruCache::sparse(alloc, most)?,
            refused: 0,
        })
    }

    /// Returns how often a name was not cached, since there was no memory.
    pub fn refused(&self) -> u64
        ensures { result ≡ self.now.refused }
    {
        self.refused
    }

    /// Returns the node that the name resolves to, if that is cached. The name is then the last one used.
    pub fn find(&mut self, dir: u32, name: &[u8]) -> Option<u32>
        requires short { length name.now ≤ MAX_CACHED_NAME_BYTES }
        ensures value { result ≡ cached_node self.old dir name.now }
        ensures recent { self.new ≡ with_used_name self.old dir name.now }
        ensures stays { cached_node self.new dir name.now ≡ result }
        ensures no_more { HoldsNoMore self.old self.new }
    {
        self.pairs.get(&NameKey::of(dir, name)).copied()
    }

    /// Caches that the name resolves to the node. If the cache is full, the name that was not used for
    /// longest is removed. If there is no memory, the cache is as before, and one more is counted as
    /// refused.
    pub fn keep(&mut self, dir: u32, name: &[u8], number: u32) -> Result<(), AllocError>
        requires short { length name.now ≤ MAX_CACHED_NAME_BYTES }
        ensures kept { OnOk result (self.new ≡ with_cached_name self.old dir name.now number) }
        ensures found { OnOk result (cached_node self.new dir name.now ≡ Some number) }
        ensures refused { OnErr result (self.new ≡ with_one_more_refused self.old) }
        ensures beside { HoldsBeside self.old self.new (key_of dir name.now, number) }
        ensures few { length self.new.pairs ≤ MAX_CACHED_NAMES }
    {
        // That there are at most `MAX_CACHED_NAMES`.
        let _few = self.pairs.len();
        match self.pairs.put(NameKey::of(dir, name), number) {
            Ok(_) => Ok(()),
            Err(_) => {
                self.refused = self.refused.saturating_add(1);
                Err(AllocError)
            }
        }
    }

    /// Removes the cached name. Takes no memory.
    pub fn forget(&mut self, dir: u32, name: &[u8])
        requires short { length name.now ≤ MAX_CACHED_NAME_BYTES }
        ensures gone { self.new ≡ without_cached_name self.old dir name.now }
        ensures none { HoldsNone self.new dir name.now }
        ensures no_more { HoldsNoMore self.old self.new }
    {
        // An empty cache is frequent, and a key has 264 bytes. A length also states that no two pairs have
        // one name.
        let count = self.pairs.len();
        if count == 0 {
            return;
        }
        let _gone = self.pairs.pop_entry(&NameKey::of(dir, name));
    }

    /// Forgets all names of the directory. It takes no memory. It goes over all names.
    pub fn forget_dir(&mut self, dir: u32)
        ensures gone { self.new ≡ without_dir self.old dir }
        ensures none { HoldsNoneIn self.new dir }
        ensures no_more { HoldsNoMore self.old self.new }
    {
        while let Some(key) = self.first_in(dir) {
            self.take(&key);
        }
    }

    // The first name of the directory.
    fn first_in(&self, dir: u32) -> Option<NameKey>
        ensures { result ≡ option_map (λ pair. pair.0) (find (is_in dir) self.now.pairs) }
    {
        for (key, _) in self.pairs.iter() {
            if key.dir == dir {
                return Some(*key);
            }
        }
        None
    }

    // Removes the cached name.
    fn take(&mut self, key: &NameKey)
        ensures { self.new ≡ without_cached_name self.old key.now.dir key.now.name }
    {
        let _gone = self.pairs.pop_entry(key);
    }

    /// Forgets all names. It takes no memory.
    pub fn forget_all(&mut self)
        ensures { self.new ≡ with_pairs self.old [] }
    {
        self.pairs.clear();
    }
}
