//! Policies and contexts of version 2, and the exact bytes in which Linux fscrypt stores them.
#![tactic(auto)]

mod decode;
mod encode;
mod fault;
mod policy;

pub use decode::{decode_context, decode_policy};
pub use encode::{encode_context, encode_policy, id_in, is_by_mode};
pub use fault::CtxFault;
pub use policy::{Context, KeyId, Pad, Policy, Unit, same_policy};

/// The length of a policy in bytes.
pub const POLICY_LEN: usize = 24;

/// The length of a context in bytes: a policy and a nonce.
pub const CONTEXT_LEN: usize = 40;

/// The version of policies that has an identifier for the key.
const VERSION: u8 = 2;

/// AES-256-XTS.
const CONTENTS_MODE: u8 = 1;

/// AES-256-CBC with ciphertext stealing.
const NAMES_MODE: u8 = 4;
