//! Entries put in order of place.

ghost use Rattle.std.specs.Prelude.{◌≡◌, ℕ, OnOk, OnErr};
ghost use Rattle.call_history.specs.Entries.{History, by, entries_by, in_order, entries_with_places};

use crate::entry::Entry;
use std::alloc::AllocError;

/// Puts entries in order of place; those of one place stay in their order. Entries that are, caller by
/// caller, those of a history are then that history's, one after another. If out of memory, they stay as
/// they were.
pub fn sort_by_place<C, R>(entries: &mut Vec<(u64, Entry<C, R>)>) -> Result<(), AllocError>
    ensures sorted { OnOk result (entries.new.items ≡ in_order entries.old.items) }
    ensures history { OnOk result ((history : History C R)
        → ((caller : ℕ) → by caller entries.old.items ≡ entries_by caller history)
        → entries.new.items ≡ entries_with_places 0 history) }
    ensures kept { OnErr result (entries.new.items ≡ entries.old.items) }
{
    entries.sort_by_key(|entry| entry.0)
}
