//! The claims of users on keys: a finite set of pairs.
#![tactic(auto)]

mod claims;
mod fault;

pub use claims::{Claims, MAX_CLAIMS};
pub use fault::ClaimFault;
pub use policy_ctx::KeyId;
