//! The names of a caller's last listing.

ghost use Rattle.std.specs.Prelude.{◌≡◌};
ghost use Rattle.std.specs.Option.{option_map};
ghost use Rattle.fsc_commands.specs.Steps.{names_of_reply, names_in};

use call_history::Entry;
use item_list::Bytes;
use mount_model::Reply;
use reply_text::LoggedCall;

// Returns the names of the last listing among the entries, or none before the first listing. It searches
// backwards entry by entry, so it is called only for a star.
pub(crate) fn last_names(told: &[(u64, Entry<LoggedCall, Reply>)]) -> &[Bytes]
    ensures { result.now ≡ names_in told.now }
{
    'entries: for k in 0..told.len() {
        let index = told.len() - 1 - k;
        let entry = &told[index];
        if let Some(names) = names_of_reply(&entry.1.reply) {
            return names;
        }
    }
    &[]
}

// Returns the names of a reply that is a listing.
fn names_of_reply(reply: &Reply) -> Option<&[Bytes]>
    ensures { option_map (λ names. names.now) result ≡ names_of_reply reply.now }
{
    match reply {
        Reply::Names { names, .. } => Some(names.as_slice()),
        _ => None,
    }
}
