//! The records of a mount: small texts under names, each with a version that counts how often it was
//! written.
#![tactic(auto)]

mod fault;
mod files;
mod laws;
mod name_index;

pub use fault::StoreFault;
pub use files::{LAST_VERSION, MAX_RECORD_BYTES, MAX_RECORDS, MetaFiles};
pub use item_list::Bytes;
pub use laws::writing_changes_one_record;
