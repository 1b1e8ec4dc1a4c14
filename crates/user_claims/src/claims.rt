//! The set of claims; only making one allocates memory.

ghost use Rattle.std.specs.Prelude.{◌≡◌, ◌+◌, ◌<◌, ◌^◌, ℕ, true, false, IsTrue, ◌↔◌};
ghost use Rattle.std.specs.Prelude.{IsOk, IsErrOf, IfErr, IfSome, IfNone, OnOk, OnErr};
ghost use Rattle.user_claims.specs.Claims.{no_claims, has_claim, with_claim, without_claim, without_id};
ghost use Rattle.user_claims.specs.ClaimCounts.{IsOverQuota, count_of_user, count_of_id};

use super::{ClaimFault, KeyId};
use key_counts as counts;
use std::alloc::Global;
use std::collections::{BTreeMap, BTreeSet};
use std::marker::Model;

/// The maximum number of claims of a user.
pub const MAX_CLAIMS: u32 = 64;

/// The claims of all users, seen as the finite set of (identifier, user).
///
/// Finding, making and removing a claim, and each count, take a time that grows with the logarithm of the
/// number of claims.
#[derive(Drop)]
pub struct Claims {
    claims: BTreeSet<(KeyId, u32)>,
    by_user: BTreeMap<u32, u32>,
    by_id: BTreeMap<KeyId, u32>,
}

impl Model for Claims {
    ghost use Rattle.std.specs.Coded.{coded_ℕ, coded×};
    ghost use Rattle.std.specs.FinSet.{code};
    ghost use Rattle.policy_ctx.specs.contracts.policy.KeyId as key;
    ghost use Rattle.user_claims.specs.Claims.{ClaimSet};
    ghost use Rattle.user_claims.specs.Counted.{set_of, IsCounted};

    ghost Value = { ClaimSet };

    ghost coded = { code (coded× key.the_row.coded coded_ℕ) };

    ghost view = { λ c. set_of c.claims.keys };

    ghost invariant = { λ c. IsCounted (set_of c.claims.keys) c.by_user c.by_id };
}

impl Claims {
    /// Returns a set without claims. Allocates nothing before the first claim is made.
    pub fn new(alloc: Global) -> Claims
        ensures { result ≡ no_claims }
    {
        Claims {
            claims: BTreeSet::new(alloc),
            by_user: BTreeMap::new(alloc),
            by_id: BTreeMap::new(alloc),
        }
    }

    /// Makes the user's claim on the key. A claim that is held already stays, even if the user has 64 of
    /// them, and needs no memory. If the user has 64, a new one is refused with `Quota`, for user 0 too.
    /// After a refusal all claims are as before.
    pub fn claim(&mut self, id: &KeyId, uid: u32) -> Result<(), ClaimFault>
        ensures made { OnOk result (self.new ≡ with_claim self.old id.now uid) }
        ensures kept { OnErr result (self.new ≡ self.old) }
        ensures held { IsTrue (has_claim self.old id.now uid) → IsOk result }
        ensures quota { IsErrOf result ClaimFault.Quota ↔ IsOverQuota self.old id.now uid }
    {
        if self.has(id, uid) {
            return Ok(());
        }
        if self.count_of_uid(uid) >= MAX_CLAIMS {
            return Err(ClaimFault::Quota);
        }
        // So each count fits 32 bits; no key has that many users in practice.
        if self.count_of_id(id) == u32::MAX {
            return Err(ClaimFault::NoMemory);
        }
        self.insert(id, uid)
    }

    // Inserts a new claim, with its counts.
    fn insert(&mut self, id: &KeyId, uid: u32) -> Result<(), ClaimFault>
        requires new { has_claim self.old id.now uid ≡ false }
        requires of_user { count_of_user self.old uid + 1 < 2 ^ 32 }
        requires on_id { count_of_id self.old id.now + 1 < 2 ^ 32 }
        ensures made { OnOk result (self.new ≡ with_claim self.old id.now uid) }
        ensures kept { IfErr result (λ fault. (fault ≡ ClaimFault.NoMemory) × (self.new ≡ self.old)) }
    {
        counts::one_more(&mut self.by_user, uid)?;
        if counts::one_more(&mut self.by_id, *id).is_err() {
            counts::one_less(&mut self.by_user, &uid);
            return Err(ClaimFault::NoMemory);
        }
        if self.claims.insert((*id, uid)).is_err() {
            counts::one_less(&mut self.by_user, &uid);
            counts::one_less(&mut self.by_id, id);
            return Err(ClaimFault::NoMemory);
        }
        Ok(())
    }

    /// Removes the user's claim on the key. Returns whether there was one.
    pub fn unclaim(&mut self, id: &KeyId, uid: u32) -> bool
        ensures held { result ≡ has_claim self.old id.now uid }
        ensures gone { self.new ≡ without_claim self.old id.now uid }
    {
        let held = self.claims.remove(&(*id, uid));
        if held {
            counts::one_less(&mut self.by_user, &uid);
            counts::one_less(&mut self.by_id, id);
        }
        held
    }

    /// Removes every claim on the key, one after another.
    pub fn clear(&mut self, id: &KeyId)
        ensures { self.new ≡ without_id self.old id.now }
    {
        while let Some(uid) = self.holder_of(id) {
            self.unclaim(id, uid);
        }
    }

    // Returns the first user with a claim on the key, if there is one.
    fn holder_of(&self, id: &KeyId) -> Option<u32>
        ensures some { IfSome result (λ uid. has_claim self.now id.now uid ≡ true) }
        ensures none { IfNone result ((uid : ℕ) → has_claim self.now id.now uid ≡ false) }
    {
        match self.claims.range((*id, 0)..).next() {
            Some(claim) if claim.0 == *id => Some(claim.1),
            _ => None,
        }
    }

    /// Returns whether the user has a claim on the key.
    pub fn has(&self, id: &KeyId, uid: u32) -> bool
        ensures { result ≡ has_claim self.now id.now uid }
    {
        self.claims.contains(&(*id, uid))
    }

    /// Returns how many claims the user has.
    pub fn count_of_uid(&self, uid: u32) -> u32
        ensures { result ≡ count_of_user self.now uid }
    {
        counts::count_of(&self.by_user, &uid)
    }

    /// Returns how many users have a claim on the key.
    pub fn count_of_id(&self, id: &KeyId) -> u32
        ensures { result ≡ count_of_id self.now id.now }
    {
        counts::count_of(&self.by_id, id)
    }
}
