//! The kernels that stretch passwords. Each run works on the result of the run before.
ghost use Rattle.std.specs.Prelude.{◌≡◌, [], ◌++◌, ◌<◌, IfOk, Ok, replicate};
ghost use Rattle.std.specs.Fn.{iterate};
ghost use Rattle.sha2.specs.Sha256.{sha256};
ghost use Rattle.blake2_core.specs.Digest.{blake2b_digest};
ghost use Rattle.argon_kdf.specs.CostLimits.{checked_costs};
ghost use Rattle.argon_kdf.specs.Argon2id.{argon2id_tag};

use argon_kdf::{Costs, Stretch};
use blake2_core::Blake2b;
use sha2::{Digest, Sha256};
use std::alloc::{AllocError, Global};

const SALT: [u8; 16] = [0xa5; 16];

/// One pass over 64 MiB in one lane.
pub(crate) const ONE_PASS: Costs = Costs {
    passes: 1,
    kib: 65_536,
    lanes: 1,
};

/// Three passes over 64 MiB in four lanes.
pub(crate) const THREE_PASSES: Costs = Costs {
    passes: 3,
    kib: 65_536,
    lanes: 4,
};

/// Returns 64 MiB in bytes. The contract says only that there are some, since proofs would write out that
/// many zeros.
pub(crate) fn message_len() -> usize
    ensures { 0 < result }
{
    67_108_864
}

/// Hashes the digest of the run before and `length` zeros, repeatedly.
pub(crate) fn blake2b(alloc: Global, length: usize, count: u32) -> Result<[u8; 32], AllocError>
    ensures { IfOk result (λ digest. digest
        ≡ sha256 (iterate (λ d. blake2b_digest 64 (d ++ replicate length 0)) count (replicate 64 0))) }
{
    let message = vec![in alloc; 0; length]?;
    let digest = blake2b_digests(message.as_slice(), count);
    Ok(Sha256::digest(&digest))
}

#[tactic(auto, using(crate::proofs::Repeating::iterate_more))]
fn blake2b_digests(message: &[u8], count: u32) -> [u8; 64]
    ensures { result ≡ iterate (λ d. blake2b_digest 64 (d ++ message.now)) count (replicate 64 0) }
{
    let mut digest = [0; 64];
    for _ in 0..count {
        digest = blake2b_of(&digest, message);
    }
    digest
}

fn blake2b_of(start: &[u8; 64], message: &[u8]) -> [u8; 64]
    ensures { result ≡ blake2b_digest 64 (start.now ++ message.now) }
{
    let mut hasher = Blake2b::new(64);
    hasher.update(start);
    hasher.update(message);
    let mut digest = [0; 64];
    hasher.finish(&mut digest);
    digest
}

/// Stretches the tag of the run before in this way, repeatedly.
#[tactic(auto, using(crate::proofs::Repeating::iterate_more))]
pub(crate) fn argon2id_tags<S: Stretch>(
    stretches: &S,
    alloc: Global,
    costs: &Costs,
    count: u32,
) -> Result<[u8; 32], AllocError>
    requires ready { S.ready stretches.now }
    requires costs { checked_costs costs.now ≡ Ok tt }
    ensures { IfOk result (λ digest. digest
        ≡ sha256 (iterate (λ tag. argon2id_tag costs.now tag SALT [] []) count (replicate 32 0))) }
{
    let mut tag = [0; 32];
    for _ in 0..count {
        let password = tag;
        stretches.stretch(alloc, costs, &password, &SALT, &mut tag)?;
    }
    Ok(Sha256::digest(&tag))
}
