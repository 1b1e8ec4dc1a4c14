//! The entries of a directory by place, and their index by name.
ghost use Rattle.std.specs.Prelude.{◌≡◌, ◌+◌, ◌++◌, [], ◌∷◌, ℕ, true, nat_eq, if◌then◌else◌};
ghost use Rattle.std.specs.Prelude.{IfSome, IfOk, OnOk, OnErr};
ghost use Rattle.std.specs.List.Sorted.{IsStrictlySortedBy};
ghost use Rattle.std.specs.Map.{keys_of, remove_entry};
ghost use Rattle.std.specs.Ordering.{nat_cmp};
ghost use Rattle.std.specs.BTreeMap.{is_at};
ghost use Rattle.disk_tree.specs.Indexed.{AreBelow, oldest};
ghost use Rattle.disk_tree.specs.NameIndex.{hash_of as hash, indexed_entry};

use item_list::Bytes;
use number_map::RisingMap;
use std::alloc::{AllocError, Global};
use std::collections::HashMap;
use std::hash::{FoldHasher, Hasher};

// The entries by place: the stored name and the node's number.
pub(crate) type Order = RisingMap<(Bytes, u32)>;

// The place and the number of an entry, under the hash of its name. The names are hashed here, since a map by
// names would hash them byte by byte. They are stored in the order alone.
pub(crate) type Index = HashMap<u64, (u64, u32)>;

// The hash of a name. Its seed is fixed.
pub(crate) fn hash_of(name: &[u8]) -> u64
    ensures { result ≡ hash name.now }
{
    let mut hasher = FoldHasher::default();
    hasher.write(name);
    hasher.finish()
}

// What the index has under the hash.
pub(crate) fn under_hash(index: &Index, hash: u64) -> Option<(u64, u32)>
    ensures { result ≡ indexed_entry index.now.entries hash }
{
    match index.get(&hash) {
        Some(found) => Some(*found),
        None => None,
    }
}

// The place and the number of the oldest entry of this name, by a search from the oldest on.
pub(crate) fn search_by_name(order: &Order, name: &[u8]) -> Option<(u64, u32)>
    ensures { result ≡ oldest order.now name.now }
{
    'each: for (place, entry) in order.iter() {
        if name == entry.0.as_slice() {
            return Some((place, entry.1));
        }
    }
    None
}

// Appends an entry.
pub(crate) fn add_last(
    order: &mut Order,
    place: u64,
    name: Bytes,
    number: u32,
) -> Result<(), AllocError>
    requires { AreBelow place order.old }
    ensures put { OnOk result (order.new ≡ order.old ++ (place, (name, number)) ∷ []) }
    ensures kept { OnErr result (order.new ≡ order.old) }
    ensures rising { IsStrictlySortedBy nat_cmp (keys_of order.new) }
{
    order.put(place, (name, number))?;
    Ok(())
}

// Removes the entry at this place.
pub(crate) fn drop_place(order: &mut Order, place: u64)
    ensures gone { order.new ≡ remove_entry (is_at (nat_cmp place)) order.old }
    ensures rising { IsStrictlySortedBy nat_cmp (keys_of order.new) }
{
    order.remove(place);
}

// Puts a place and a number under the hash, replacing what the index had there. Returns whether it had
// nothing there.
pub(crate) fn add_hash(index: &mut Index, hash: u64, found: (u64, u32)) -> Result<bool, AllocError>
    ensures lacked { IfOk result (λ alone. alone ≡ true → indexed_entry index.old.entries hash ≡ None) }
    ensures put { OnOk result ((other : ℕ) → indexed_entry index.new.entries other
        ≡ if nat_eq hash other then Some found else indexed_entry index.old.entries other) }
    ensures kept { OnErr result (index.new.entries ≡ index.old.entries) }
{
    let before = index.insert(hash, found)?;
    Ok(before.is_none())
}

// Removes what is under the hash.
pub(crate) fn drop_hash(index: &mut Index, hash: u64)
    ensures { (other : ℕ) → indexed_entry index.new.entries other
        ≡ if nat_eq hash other then None else indexed_entry index.old.entries other }
{
    index.remove(&hash);
}

// The place after this one. Places are not used again; 2^64 of them outlast every run.
pub(crate) fn next_place(place: u64) -> Option<u64>
    ensures { IfSome result (λ next. next ≡ place + 1) }
{
    if place < u64::MAX {
        Some(place + 1)
    } else {
        None
    }
}
