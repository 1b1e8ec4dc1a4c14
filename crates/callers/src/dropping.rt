//! A caller of `key_ring`.

ghost use Rattle.std.specs.Prelude.{◌≡◌, None, is_some, IfSome};
ghost use Rattle.user_claims.specs.Claims.{has_claim, without_claim};
ghost use Rattle.user_claims.specs.ClaimCounts.{count_of_id};
ghost use Rattle.key_ring.specs.Holding.{remaining_secrets};

use key_ring::{KeyId, KeyRing};

/// Removes the user's claim on the key, and with the last claim the secret. Returns the number of claims
/// that remain on the key, or `None` exactly when the user had no claim.
pub fn drop_claim(ring: &mut KeyRing, id: &KeyId, uid: u32) -> Option<u32>
    ensures held { is_some result ≡ has_claim ring.old.claims id.now uid }
    ensures claims { IfSome result (λ _. ring.new.claims ≡ without_claim ring.old.claims id.now uid) }
    ensures left { IfSome result (λ left. left ≡ count_of_id ring.new.claims id.now) }
    ensures secrets { IfSome result (λ _.
        ring.new.secrets ≡ remaining_secrets ring.old.secrets ring.new.claims id.now) }
    ensures kept { result ≡ None → ring.new ≡ ring.old }
{
    if !ring.claims().has(id, uid) {
        return None;
    }
    Some(ring.take_claim(id, uid))
}
