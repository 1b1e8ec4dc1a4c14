//! The text of a run on two mounts.

ghost use Rattle.std.specs.Prelude.{◌≡◌, ◌++◌, IfOk, OnOk};
ghost use Rattle.call_history.specs.Placed.{entries_of};
ghost use Rattle.reply_text.specs.Logged.{log_of_history};
ghost use Rattle.linked_turns.specs.LinkedText.{linked_text};

use crate::output::LinkedOutput;
use item_list::Bytes;
use reply_text::{write_log, write_notes};
use script_runs::{PlacedVec, history_of};
use std::alloc::{AllocError, Global};

/// Returns the text of a run on two mounts: the line `mount 0` and the log of mount 0, the line `mount 1`
/// and the log of mount 1, then the notes. The only error is out of memory.
pub fn linked_log(alloc: Global, told: LinkedOutput) -> Result<Bytes, AllocError>
    ensures { IfOk result (λ text. text ≡ linked_text (entries_of told.even.items)
        (entries_of told.odd.items) told.notes.items) }
{
    let mut text = Vec::new(alloc);
    put_log(alloc, &mut text, b"mount 0\n", told.even)?;
    put_log(alloc, &mut text, b"mount 1\n", told.odd)?;
    text.append(&mut write_notes(alloc, told.notes.as_slice())?.into_vec())?;
    Ok(Bytes::from_vec(text))
}

// Appends a heading to the text, then the log of these entries.
fn put_log(
    alloc: Global,
    text: &mut Vec<u8>,
    heading: &[u8],
    entries: PlacedVec,
) -> Result<(), AllocError>
    ensures { OnOk result (text.new.items ≡ text.old.items
        ++ (heading.now ++ log_of_history (entries_of entries.items))) }
{
    let history = history_of(alloc, entries)?;
    text.extend_from_slice(heading)?;
    text.append(&mut write_log(alloc, history.as_slice())?.into_vec())
}
