//! The ring: claims, and a secret exactly when there is a claim.

ghost use Rattle.std.specs.Prelude.{◌≡◌, ◌↔◌, IsTrue, IsOk, IsErrOf, IfOk, OnOk, OnErr, option_copied};
ghost use Rattle.std.specs.FinMap as map;
ghost use Rattle.fsc_keys.specs.Keys.{key_id_of};
ghost use Rattle.user_claims.specs.Claims.{no_claims, has_claim, with_claim, without_claim, without_id};
ghost use Rattle.user_claims.specs.ClaimCounts.{IsOverQuota, count_of_id};
ghost use Rattle.key_ring.specs.Holding.{secret_of, remaining_secrets, HoldsClaimedSecrets};

use super::secrets;
use super::secrets::Secrets;
use fsc_keys::{KeyId, PreparedKey, RawKey};
use std::alloc::Global;
use std::collections::BTreeMap;
use std::marker::Model;
use user_claims::{ClaimFault, Claims};

/// Master keys by identifier, seen as the claims on them and the secret of each that has a claim.
///
/// Every call but `clear` takes a time that grows with the logarithm of how many there are.
pub struct KeyRing {
    claims: Claims,
    secrets: Secrets,
}

// Written, and not derived, so that a crate that lets one go needn't prove how that is done.
impl Drop for KeyRing {
    fn drop(self) {
        let KeyRing {
            claims: _,
            secrets: _,
        } = self;
    }
}

impl Model for KeyRing {
    ghost use Rattle.std.specs.Prelude.{refl};
    ghost use Rattle.std.specs.Coded.{code_by, coded_ℕ, coded×, coded_list};
    ghost use Rattle.std.specs.FinMap.{code};
    ghost use Rattle.policy_ctx.specs.contracts.policy.KeyId as key;
    ghost use Rattle.user_claims.specs.contracts.claims.Claims as claimed;
    ghost use Rattle.user_claims.specs.Claims.{ClaimSet};
    ghost use Rattle.key_ring.specs.Holding.{Holding, SecretMap, HoldsClaimedSecrets};
    ghost use Rattle.key_ring.specs.Kept.{secrets_of};

    ghost Value = { Holding };

    ghost coded = { code_by (ClaimSet × SecretMap)
        (coded× claimed.the_row.coded (code key.the_row.coded (coded_list coded_ℕ)))
        (λ ring. (ring.claims, ring.secrets))
        (λ pair. record { claims = pair.0; secrets = pair.1 })
        (λ _. refl) };

    ghost view = { λ r. record { claims = r.claims; secrets = secrets_of r.secrets.entries } };

    ghost invariant = { λ r. HoldsClaimedSecrets
        (record { claims = r.claims; secrets = secrets_of r.secrets.entries }) };
}

impl KeyRing {
    /// No claims and no secrets. It takes no memory before the first key is added.
    pub fn new(alloc: Global) -> KeyRing
        ensures claims { result.claims ≡ no_claims }
        ensures secrets { result.secrets ≡ map.empty }
    {
        KeyRing {
            claims: Claims::new(alloc),
            secrets: BTreeMap::new(alloc),
        }
    }

    /// Adds the user's claim on the key, whose secret is then this raw key. Returns the key's identifier.
    /// Refused as the claim is: `Quota` if it would be a new one and the user has 64. A claim that is held
    /// takes no memory. After a refusal the ring is as before, and no copy of the raw key is left.
    pub fn add(&mut self, alloc: Global, raw: &RawKey, uid: u32) -> Result<KeyId, ClaimFault>
        ensures id { IfOk result (λ id. id ≡ key_id_of raw.now) }
        ensures claimed { OnOk result (self.new.claims ≡ with_claim self.old.claims (key_id_of raw.now) uid) }
        ensures secret { OnOk result
            (self.new.secrets ≡ map.insert self.old.secrets (key_id_of raw.now) raw.now) }
        ensures kept { OnErr result (self.new ≡ self.old) }
        ensures held { IsTrue (has_claim self.old.claims (key_id_of raw.now) uid) → IsOk result }
        ensures quota { IsErrOf result ClaimFault.Quota
            ↔ IsOverQuota self.old.claims (key_id_of raw.now) uid }
    {
        let mut key = PreparedKey::new(raw.copy());
        let id = key.id();
        if let Err(fault) = self.claims.claim(&id, uid) {
            key.wipe();
            return Err(fault);
        }
        if secrets::keep(&mut self.secrets, alloc, id, key).is_err() {
            // A key with a claim has a secret, for which there is space: so this claim is the key's first.
            self.claims.unclaim(&id, uid);
            return Err(ClaimFault::NoMemory);
        }
        Ok(id)
    }

    /// Removes the user's claim on the key. Returns how many users still have one. With the last one the
    /// secret is wiped and dropped. Takes no memory.
    pub fn take_claim(&mut self, id: &KeyId, uid: u32) -> u32
        requires held { IsTrue (has_claim self.old.claims id.now uid) }
        ensures claims { self.new.claims ≡ without_claim self.old.claims id.now uid }
        ensures left { result ≡ count_of_id self.new.claims id.now }
        ensures secrets { self.new.secrets ≡ remaining_secrets self.old.secrets self.new.claims id.now }
    {
        self.claims.unclaim(id, uid);
        let left = self.claims.count_of_id(id);
        if left == 0 {
            secrets::forget(&mut self.secrets, id);
        }
        left
    }

    /// Removes every claim on the key, and wipes and drops its secret. Takes no memory.
    pub fn clear(&mut self, id: &KeyId)
        ensures claims { self.new.claims ≡ without_id self.old.claims id.now }
        ensures secrets { self.new.secrets ≡ map.remove self.old.secrets id.now }
    {
        self.claims.clear(id);
        secrets::forget(&mut self.secrets, id);
    }

    /// Returns the key's secret, from which keys are derived: `Some` exactly when some user has a claim.
    pub fn secret_of(&self, id: &KeyId) -> Option<&PreparedKey>
        ensures { option_copied result ≡ secret_of self.now id.now }
    {
        secrets::get(&self.secrets, id)
    }

    /// The claims.
    pub fn claims(&self) -> &Claims
        ensures claims { result.now ≡ self.now.claims }
        ensures secrets { HoldsClaimedSecrets self.now }
    {
        &self.claims
    }
}
