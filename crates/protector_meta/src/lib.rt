//! The records of protectors and policies: texts that decode to exactly the values that they spell.
#![tactic(auto)]

mod descriptor;
mod fault;
mod lines;
mod link;
mod policy_file;
mod policy_reading;
mod policy_text;
mod protector;
mod protector_text;
mod rewrapping;
mod wraps;

pub use argon_kdf::{CostFault, Costs};
pub use descriptor::Descriptor;
pub use fault::MetaFault;
pub use fsc_keys::KeyId;
pub use item_list::Bytes;
pub use link::{MAX_LINK_BYTES, encode_link, is_link};
pub use policy_ctx::{Pad, Unit};
pub use policy_file::{Options, PolicyFile, add_protector, drop_protector};
pub use policy_reading::decode_policy_file;
pub use policy_text::encode_policy_file;
pub use protector::{Protector, ProtectorKind, Stretching};
pub use protector_text::{decode_protector, encode_protector};
pub use rewrapping::rewrap;
pub use short_bytes::Label;
pub use wraps::{MAX_WRAPS, Wrap, WrapFault, WrapList};
