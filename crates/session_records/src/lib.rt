//! The records of protectors and policies as a session has them: what the reply to loading one makes of
//! it and how it opens, those that a session makes and stores, and the bytes that commands derive from a
//! seed.
#![tactic(auto)]

mod derivations;
mod derived_keys;
mod derived_records;
mod loading;
mod new_records;
mod opening;
mod options;
mod outcomes;
mod stop;
mod stored;
mod turn;
mod wrapping;

pub use derivations::{
    NONCE_BYTES, Purpose, derived_nonce, derived_nonces_are_bytes, distinct_derivations, draw,
};
pub use derived_records::{new_policy, new_protector, policy_with_wrap, protector_with_secret};
pub use loading::{LoadedPolicy, LoadedProtector, loaded_policy};
pub use new_records::made_records_open;
pub use opening::{
    OpenedPolicy, OpenedProtector, only_passphrases_are_stretched, opened_policy,
    unwrapped_protector,
};
pub use options::{node_policy, with_options};
pub use outcomes::{ExpectedReply, outcome_of};
pub use stop::Stop;
pub use stored::{record_name, stored_policy, stored_protector};
pub use turn::Turn;
pub use wrapping::{policy_without, wrap_space_for};
