//! The state that represents the one-thread mount: what is stored, the secrets, the cached keys and the
//! open handles, in a type that ensures what must be forgotten.
#![tactic(auto)]

mod caching;
mod contexts;
mod handle_fault;
mod handle_table;
mod in_dir;
mod key_presence;
mod keyed;
mod laws;
mod names;
mod state;
mod walk;

pub use contexts::context_of;
pub use handle_fault::HandleFault;
pub use handle_table::HandleTable;
pub use in_dir::entry_of_visible_name;
pub use keyed::start_of;
pub use laws::a_state_is_its_parts;
pub use mount_model::{Handle, KeyId, KeyState, Path, Refusal};
pub use state::MountState;
pub use walk::{entry_of, last_bytes, walk_parent_past, walked_node, walked_parent};
