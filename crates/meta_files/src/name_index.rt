//! The index of the records: under each name the place of its record.
ghost use Rattle.std.specs.Prelude.{◌≡◌, ℕ, List, Some, None, if◌then◌else◌, OnOk, OnErr};
ghost use Rattle.std.specs.Str.{bytes_eq};
ghost use Rattle.meta_files.specs.Indexed.{indexed};

use std::alloc::{AllocError, Global};
use std::collections::BTreeMap;

// The place of each name.
pub(crate) type Index = BTreeMap<Vec<u8>, usize>;

// The place under the name, if there is one.
pub(crate) fn place_of(index: &Index, name: &[u8]) -> Option<usize>
    ensures { result ≡ indexed index.now.entries name.now }
{
    index.get(name).copied()
}

// Adds the name with its place.
pub(crate) fn add_name(
    index: &mut Index,
    alloc: Global,
    name: &[u8],
    place: usize,
) -> Result<(), AllocError>
    ensures put { OnOk result ((other : List ℕ) → indexed index.new.entries other
        ≡ if bytes_eq name.now other then Some place else indexed index.old.entries other) }
    ensures kept { OnErr result (index.new.entries ≡ index.old.entries) }
{
    index.insert(Vec::from_slice(alloc, name)?, place)?;
    Ok(())
}

// Removes the name.
pub(crate) fn drop_name(index: &mut Index, name: &[u8])
    ensures { (other : List ℕ) → indexed index.new.entries other
        ≡ if bytes_eq name.now other then None else indexed index.old.entries other }
{
    index.remove(name);
}
