//! What the callers of a run received.

ghost use Rattle.std.specs.Prelude.{◌≡◌, ◌<◌, ◌^◌, [], ◌++◌, length, IfOk, OnOk};
ghost use Rattle.call_history.specs.Placed.{entries_of};

use call_history::Entry;
use fsc_session::Ran;
use mount_model::Reply;
use reply_text::{LoggedCall, Note};
use std::alloc::{AllocError, Global};

/// What a log shows of entries, with their places.
pub type PlacedVec = Vec<(u64, Entry<LoggedCall, Reply>)>;

/// What a log shows of callers' calls and their replies, and how their session commands ended.
#[derive(Drop)]
pub struct RunOutput {
    pub entries: PlacedVec,
    pub notes: Vec<Note>,
}

impl RunOutput {
    // Returns a value without entries and notes. Allocates nothing.
    pub(crate) fn nothing(alloc: Global) -> RunOutput
        ensures entries { result.entries.items ≡ [] }
        ensures notes { result.notes.items ≡ [] }
    {
        RunOutput {
            entries: Vec::new(alloc),
            notes: Vec::new(alloc),
        }
    }

    // Returns what one caller received.
    pub(crate) fn of_caller(ran: Ran) -> RunOutput
        ensures entries { result.entries.items ≡ ran.entries }
        ensures notes { result.notes.items ≡ ran.notes }
    {
        RunOutput {
            entries: ran.entries.into_vec(),
            notes: ran.notes.into_vec(),
        }
    }

    /// Returns how many entries there are: fewer than there are places.
    pub fn count(&self) -> usize
        ensures value { result ≡ length self.now.entries.items }
        ensures short { length self.now.entries.items < 2 ^ 64 }
    {
        self.entries.len()
    }

    // Appends what other callers received.
    pub(crate) fn append(&mut self, mut others: RunOutput) -> Result<(), AllocError>
        ensures entries { OnOk result (self.new.entries.items
            ≡ self.old.entries.items ++ others.entries.items) }
        ensures notes { OnOk result (self.new.notes.items
            ≡ self.old.notes.items ++ others.notes.items) }
    {
        self.entries.append(&mut others.entries)?;
        self.notes.append(&mut others.notes)?;
        Ok(())
    }
}

/// Returns the entries without their places. The only error is out of memory.
pub fn history_of(
    alloc: Global,
    entries: PlacedVec,
) -> Result<Vec<Entry<LoggedCall, Reply>>, AllocError>
    ensures { IfOk result (λ history. history.items ≡ entries_of entries.items) }
{
    let mut history = Vec::new(alloc);
    'entries: for (_, entry) in entries {
        history.push(entry)?;
    }
    Ok(history)
}
