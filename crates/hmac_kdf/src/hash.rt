//! What HMAC needs of a hash function: its digests are arrays of `N` bytes, and it takes its message in
//! blocks of `B`.

ghost use Rattle.std.specs.Prelude.{◌≡◌, ℕ, List};
ghost use Rattle.sha2.specs.Sha256.{sha256};
ghost use Rattle.sha2.specs.Sha512.{sha512};

use sha2::{Digest, Sha256, Sha512};

/// A hash function with blocks of `B` bytes and digests of `N`.
pub(crate) trait BlockHash<const B: usize, const N: usize>: Digest<Output = [u8; N]> + Clone {
    // The digest of a message.
    ghost digest_bytes: { List ℕ → List ℕ };

    // A hasher returns that digest, and a hasher's copy is the same hasher: HKDF keys two hashers once, and
    // copies them for each block of its output.
    ghost computes: { (m d : List ℕ) → Self.digest_of m d → d ≡ digest_bytes m };

    ghost clones_exactly: { (s t : Self) → Self.is_clone s t → t ≡ s };

    ghost always_clones: { (s : Self) → Self.is_infallible s };
}

impl BlockHash<64, 32> for Sha256 {
    ghost digest_bytes = { sha256 };

    ghost computes = { λ m d h. h };

    ghost clones_exactly = { λ s t h. h };

    ghost always_clones = { λ _. tt };
}

impl BlockHash<128, 64> for Sha512 {
    ghost digest_bytes = { sha512 };

    ghost computes = { λ m d h. h };

    ghost clones_exactly = { λ s t h. h };

    ghost always_clones = { λ _. tt };
}
