//! The results of a run's callers.

ghost use Rattle.std.specs.Prelude.{◌≡◌, [], ◌++◌, OnOk};
ghost use Rattle.linked_threads.specs.Threaded.{IsPutInOrder};

use call_history::sort_by_place;
use linked_turns::LinkedOutput;
use std::alloc::{AllocError, Global};

// The result without callers. It takes no memory.
pub(crate) fn nothing(alloc: Global) -> LinkedOutput
    ensures even { result.even.items ≡ [] }
    ensures odd { result.odd.items ≡ [] }
    ensures notes { result.notes.items ≡ [] }
{
    LinkedOutput {
        even: Vec::new(alloc),
        odd: Vec::new(alloc),
        notes: Vec::new(alloc),
    }
}

// Appends the results of others.
pub(crate) fn append(told: &mut LinkedOutput, mut others: LinkedOutput) -> Result<(), AllocError>
    ensures even { OnOk result (told.new.even.items ≡ told.old.even.items ++ others.even.items) }
    ensures odd { OnOk result (told.new.odd.items ≡ told.old.odd.items ++ others.odd.items) }
    ensures notes { OnOk result (told.new.notes.items ≡ told.old.notes.items ++ others.notes.items) }
{
    told.even.append(&mut others.even)?;
    told.odd.append(&mut others.odd)?;
    told.notes.append(&mut others.notes)?;
    Ok(())
}

// Sorts the entries of either mount by place.
pub(crate) fn put_in_order(told: &mut LinkedOutput) -> Result<(), AllocError>
    ensures even { OnOk result (IsPutInOrder told.old.even.items told.new.even.items) }
    ensures odd { OnOk result (IsPutInOrder told.old.odd.items told.new.odd.items) }
    ensures notes { told.new.notes ≡ told.old.notes }
{
    sort_by_place(&mut told.even)?;
    sort_by_place(&mut told.odd)
}
