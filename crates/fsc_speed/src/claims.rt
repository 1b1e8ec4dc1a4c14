//! The kernel of claims. It returns the number of claims in the end, and no contract says what that
//! number is.
use crate::scattering::scattered_bytes;
use std::alloc::{AllocError, Global};
use user_claims::{Claims, KeyId};

/// The number of users that make claims.
const USERS: u32 = 600;

/// The maximum number of claims of that many users.
const MAX_MADE: u32 = 38_400;

/// The number of claims that a run makes.
#[derive(Clone, Copy)]
pub(crate) struct ClaimCount {
    claims: u32,
}

impl ClaimCount {
    pub(crate) fn read(digits: &str) -> Option<ClaimCount> {
        match digits.parse::<u32>() {
            Ok(claims) if claims <= MAX_MADE => Some(ClaimCount { claims }),
            _ => None,
        }
    }
}

/// Makes that many claims of 600 users, one key after another, and again from none in each run.
pub(crate) fn make_claims(alloc: Global, size: ClaimCount, count: u32) -> Result<u32, AllocError> {
    let mut found = 0u32;
    for _ in 0..count {
        found = found.wrapping_add(claims_of_first(alloc, size)?);
    }
    Ok(found)
}

// Makes the claims, and returns how many of them the first key has.
fn claims_of_first(alloc: Global, size: ClaimCount) -> Result<u32, AllocError> {
    let mut claims = Claims::new(alloc);
    for made in 0..size.claims {
        claims
            .claim(&key(made / USERS), made % USERS)
            .map_err(|_| AllocError)?;
    }
    Ok(claims.count_of_id(&key(0)))
}

// Scattered as identifiers are.
fn key(number: u32) -> KeyId {
    KeyId(scattered_bytes(number))
}
