//! What each command of a script asks of a mount, and how it runs on any port.
#![tactic(auto)]

mod calls;
mod changing;
mod command;
mod encrypting;
mod known_entries;
mod linking;
mod opening;
mod parts;
mod policies;
mod policy_add;
mod policy_changes;
mod policy_new;
mod protectors;
mod references;
mod session;
mod stars;
mod stores;
mod unlocking;
mod wiping;
mod work;

use call_history::Entry;
pub use command::run_command;
use item_list::Items;
use mount_model::Reply;
pub use references::id_of_ref;
use reply_text::LoggedCall;
pub use session_records::Turn;
pub use stars::resolved_path;
pub use wiping::wipe_call;

/// What a log shows of a caller's calls and their replies, each with its place in the history, which counts
/// from 0. It contains no raw keys, nonces or written bytes.
pub type EntryList = Items<(u64, Entry<LoggedCall, Reply>)>;

/// The maximum number of calls that a command makes.
pub const MAX_CALLS: u64 = 4;
