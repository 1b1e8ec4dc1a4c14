//! The names of a caller's last listing.

ghost use Rattle.std.specs.Prelude.{◌≡◌, [], ◌∷◌, OnOk, is_some};
ghost use Rattle.fsc_commands.specs.Steps.{names_in, names_of_reply};

use call_history::Entry;
use fsc_commands::EntryList;
use mount_model::Reply;
use reply_text::LoggedCall;
use std::alloc::{AllocError, Global};
use std::mem;

// Retains the last of the entries with names, if there is one, and drops the others.
pub(crate) fn retain_last_listing(alloc: Global, entries: &mut EntryList) -> Result<(), AllocError>
    ensures { OnOk result (names_in entries.new ≡ names_in entries.old) }
{
    'told: while let Some(placed) = entries.pop() {
        if lists_names(&placed.1.reply) {
            return keep_alone(alloc, entries, placed);
        }
        drop_placed(placed);
    }
    Ok(())
}

// Replaces all entries by this one.
fn keep_alone(
    alloc: Global,
    entries: &mut EntryList,
    placed: (u64, Entry<LoggedCall, Reply>),
) -> Result<(), AllocError>
    ensures { OnOk result (entries.new ≡ placed ∷ []) }
{
    let mut alone = EntryList::new(alloc);
    alone.push(placed)?;
    drop_all(mem::replace(entries, alone));
    Ok(())
}

// Whether a reply has names.
fn lists_names(reply: &Reply) -> bool
    ensures { result ≡ is_some (names_of_reply reply.now) }
{
    matches!(reply, Reply::Names { .. })
}

// In functions of their own: in a function with branches, each branch would drop each variant.
fn drop_placed(_placed: (u64, Entry<LoggedCall, Reply>)) {}

fn drop_all(_entries: EntryList) {}
