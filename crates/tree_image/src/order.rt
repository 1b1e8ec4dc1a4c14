//! The entries of a directory in the order of an image.

ghost use Rattle.std.specs.Prelude.{◌≡◌, map, IfOk};
ghost use Rattle.tree_image.specs.Order.{in_order};

use disk_tree::DirEntries;
use item_list::Bytes;
use std::alloc::{AllocError, Global};

// The entries in order, as references: no name is copied.
pub(crate) fn entries_in_order<'a>(
    alloc: Global,
    entries: &'a DirEntries,
) -> Result<Vec<&'a (Bytes, u32)>, AllocError>
    ensures { IfOk result (λ sorted. map (λ e. e.now) sorted.items ≡ in_order entries.now) }
{
    let mut sorted = references(alloc, entries)?;
    sort(&mut sorted);
    Ok(sorted)
}

// The entries in the order in which they were made.
fn references<'a>(
    alloc: Global,
    entries: &'a DirEntries,
) -> Result<Vec<&'a (Bytes, u32)>, AllocError>
    ensures { IfOk result (λ all. map (λ e. e.now) all.items ≡ entries.now) }
{
    let mut all = Vec::with_capacity(alloc, entries.len())?;
    'each: for entry in entries.iter() {
        all.push(entry)?;
    }
    Ok(all)
}

// Sorts entries. By name alone, two of one name could be in either order.
fn sort(entries: &mut [&(Bytes, u32)])
    ensures { map (λ e. e.now) entries.new ≡ in_order (map (λ e. e.now) entries.old) }
{
    entries.sort_unstable_by(|a, b| { a.0.as_slice().cmp(b.0.as_slice()).then(a.1.cmp(&b.1)) });
}
