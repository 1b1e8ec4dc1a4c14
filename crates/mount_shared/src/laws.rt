//! The parts of a mount, and what its replies report. These functions do nothing: their contracts are laws.

ghost use Rattle.std.specs.Prelude.{◌≡◌, ℕ, Bool, false};
ghost use Rattle.policy_ctx.specs.declared.policy.KeyId.{KeyId};
ghost use Rattle.user_claims.specs.Claims.{ClaimSet, without_claim};
ghost use Rattle.user_claims.specs.ClaimCounts.{is_present};
ghost use Rattle.mount_model.specs.Lawful.{ReportsClaims};
ghost use Rattle.mount_shared.specs.declared.mount.Mount.{Mount};

use mount_model::{Op, Reply};

/// A mount is its state and its allocator, and nothing else: it holds no further copy of a key.
pub fn a_mount_is_its_state()
    ensures { (a b : Mount) → a.alloc ≡ b.alloc → a.state ≡ b.state → a ≡ b }
{}

/// Whatever raw keys were added, a removal of all claims reports that none is left. A user's removal
/// reports exactly whether another user's claim is left.
pub fn removals_report_remaining_claims()
    ensures all { (claims : ClaimSet) (uid : ℕ) (id : KeyId) (others busy : Bool)
        → ReportsClaims claims uid (Op.RemoveKeyAll id) (Reply.Removed others busy) → others ≡ false }
    ensures own { (claims : ClaimSet) (uid : ℕ) (id : KeyId) (others busy : Bool)
        → ReportsClaims claims uid (Op.RemoveKey id) (Reply.Removed others busy)
        → others ≡ is_present (without_claim claims id uid) id }
{}
