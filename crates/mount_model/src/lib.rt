//! The one-thread mount: its calls and, in `specs/`, the answer to each.
#![tactic(auto)]

mod call;
mod copies;
mod handle;
mod laws;
pub mod limits;
mod path;
mod port;
mod reply;

pub use call::{Call, Op};
pub use fsc_keys::KeyId;
pub use handle::Handle;
pub use item_list::Bytes;
use item_list::Items;
pub use laws::{
    calls_determine_replies, claims_come_from_calls, further_names_follow,
    legal_histories_are_lawful, limits_are_exact, locked_nodes_show_texts, mounts_are_well_formed,
    policies_are_read_back, refusals_change_nothing, refusals_come_in_their_order,
    removals_leave_other_claims, some_calls_take_no_memory, steps_leave_well_formed_mounts,
    visible_names_resolve, written_contents_are_read,
};
pub use path::{Part, Path};
pub use port::MountPort;
pub use reply::{KeyState, NodeKind, Placed, Refusal, Reply};

/// A list of names, each its bytes.
pub type NameList = Items<Bytes>;
