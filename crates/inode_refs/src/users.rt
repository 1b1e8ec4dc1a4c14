//! The number of nodes with pins that have a key, by the identifiers of the keys.

ghost use Rattle.std.specs.Prelude.{◌≡◌, ℕ, true, Some, is_none, IfSome, IsOk, OnOk, OnErr};
ghost use Rattle.std.specs.BTreeMap as tree;
ghost use Rattle.policy_ctx.specs.declared.policy.KeyId.{KeyId};
ghost use Rattle.inode_refs.specs.Users.{IsAsBefore, HasOneMore, HasOneLess, HasOther};
ghost use Rattle.inode_refs.specs.Users.{AreCounted, IsCountedFor};

use fsc_keys::KeyId;
use key_counts as counts;
use std::alloc::{AllocError, Global};
use std::collections::BTreeMap;

/// The counts by identifier.
#[derive(Drop)]
pub(crate) struct Users {
    pub(crate) counts: BTreeMap<KeyId, u32>,
    // Whether each user is counted. It becomes false only if a key of another identifier replaced a
    // pinned node's key, and there was no memory for its count.
    pub(crate) is_whole: bool,
}

impl Users {
    // Returns no users. It takes no memory before the first one.
    pub(crate) fn new(alloc: Global) -> Users
        ensures counts { tree.IsEmpty result.counts }
        ensures whole { result.is_whole ≡ true }
    {
        Users {
            counts: BTreeMap::new(alloc),
            is_whole: true,
        }
    }

    // Counts one user more for the identifier, if there is one. Only an identifier without users takes
    // memory; if there is no memory, all is as before.
    pub(crate) fn more(&mut self, id: Option<KeyId>) -> Result<(), AllocError>
        ensures more { OnOk result (HasOneMore self.old self.new id) }
        ensures kept { OnErr result (IsAsBefore self.old self.new) }
        ensures free { is_none id ≡ true → IsOk result }
    {
        let Some(id) = id else {
            return Ok(());
        };
        if !self.is_whole {
            return Ok(());
        }
        // So that each count fits 32 bits; there are never that many nodes in practice.
        if counts::count_of(&self.counts, &id) == u32::MAX {
            return Err(AllocError);
        }
        counts::one_more(&mut self.counts, id)
    }

    // Counts one user less for the identifier, if there is one. It takes no memory.
    pub(crate) fn less(&mut self, id: Option<KeyId>)
        requires { IsCountedFor self.old id }
        ensures { HasOneLess self.old self.new id }
    {
        if let Some(id) = id {
            if self.is_whole {
                counts::one_less(&mut self.counts, &id);
            }
        }
    }

    // Counts a user of the older identifier for the newer one. If it is out of memory, users are no
    // longer counted.
    pub(crate) fn exchange(&mut self, older: KeyId, newer: KeyId)
        requires { IsCountedFor self.old (Some older) }
        ensures { HasOther self.old self.new older newer }
    {
        if older == newer {
            return;
        }
        self.less(Some(older));
        if self.more(Some(newer)).is_ok() {
            return;
        }
        self.counts.clear();
        self.is_whole = false;
    }

    // Returns how many users the identifier has, if users are counted.
    pub(crate) fn count(&self, id: &KeyId) -> Option<u32>
        ensures { (f : KeyId → ℕ) → AreCounted self.now f → IfSome result (λ count. count ≡ f id.now) }
    {
        if !self.is_whole {
            return None;
        }
        Some(counts::count_of(&self.counts, id))
    }
}
