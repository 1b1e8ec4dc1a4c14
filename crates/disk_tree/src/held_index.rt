//! The index of a directory's names, in a box that is made with the first name.
ghost use Rattle.std.specs.Prelude.{◌≡◌, [], ℕ, nat_eq, true, false};
ghost use Rattle.std.specs.Prelude.{if◌then◌else◌, IfOk, OnOk, OnErr};
ghost use Rattle.std.specs.List.{IsDistinct};
ghost use Rattle.std.specs.Map.{keys_of};
ghost use Rattle.disk_tree.specs.Indexed.{by_hash, oldest_of_hash, oldest};
ghost use Rattle.disk_tree.specs.NameIndex.{hash_of, indexed_entry};

use crate::name_index::{Index, Order, add_hash, drop_hash, search_by_name, under_hash};
use std::alloc::{AllocError, Global};
use std::collections::HashMap;
use std::marker::Model;

// The index of the names, which is empty without a box. It is stored apart from its directory, since a
// hash map is larger than the rest of a node, and nodes are moved.
#[derive(Drop)]
pub(crate) struct HeldIndex {
    held: Option<Box<Index>>,
}

impl Model for HeldIndex {
    ghost use Rattle.disk_tree.specs.NameIndex.{Index, or_none};
    ghost use Rattle.std.specs.Prelude.{option_map};

    ghost Value = { Index };

    ghost view = { λ i. or_none (option_map (λ index. index.value.entries) i.held) };
}

impl HeldIndex {
    // An empty index, without a box.
    pub(crate) fn new() -> Self
        ensures { result ≡ [] }
    {
        HeldIndex { held: None }
    }

    // Puts a place and a number under the hash, replacing what the index had there. Returns whether it
    // had nothing there. After an error the index is unchanged.
    pub(crate) fn add(
        &mut self,
        alloc: Global,
        hash: u64,
        found: (u64, u32),
    ) -> Result<bool, AllocError>
        ensures lacked { IfOk result (λ alone. alone ≡ true → indexed_entry self.old hash ≡ None) }
        ensures put { OnOk result ((other : ℕ) → indexed_entry self.new other
            ≡ if nat_eq hash other then Some found else indexed_entry self.old other) }
        ensures kept { OnErr result (self.new ≡ self.old) }
    {
        match &mut self.held {
            Some(index) => add_hash(index, hash, found),
            None => {
                let mut index = Box::new(alloc, HashMap::new(alloc))?;
                let alone = add_hash(&mut index, hash, found)?;
                self.held = Some(index);
                Ok(alone)
            }
        }
    }

    // Removes what is under the hash.
    pub(crate) fn remove(&mut self, hash: u64)
        ensures { (other : ℕ) → indexed_entry self.new other
            ≡ if nat_eq hash other then None else indexed_entry self.old other }
    {
        if let Some(index) = &mut self.held {
            drop_hash(index, hash);
        }
    }

    // What the index has under the hash.
    fn under_hash(&self, hash: u64) -> Option<(u64, u32)>
        ensures { result ≡ indexed_entry self.now hash }
    {
        match &self.held {
            Some(index) => under_hash(index, hash),
            None => None,
        }
    }
}

// The place and the number of the oldest entry of this name. The index has the place as long as no two
// names had one hash. The order decides whether the entry there has this name.
pub(crate) fn oldest_of(
    order: &Order,
    index: &HeldIndex,
    doubled: bool,
    name: &[u8],
    hash: u64,
) -> Option<(u64, u32)>
    requires hash { hash ≡ hash_of name.now }
    requires named { doubled ≡ false → (other : ℕ)
        → indexed_entry index.now other ≡ oldest_of_hash order.now other }
    requires apart { doubled ≡ false → IsDistinct nat_eq (keys_of (by_hash order.now)) }
    ensures { result ≡ oldest order.now name.now }
{
    if doubled {
        return search_by_name(order, name);
    }
    let Some((place, number)) = index.under_hash(hash) else {
        return None;
    };
    let _count = order.len();
    match order.get(place) {
        Some(entry) => {
            if name == entry.0.as_slice() {
                Some((place, number))
            } else {
                None
            }
        }
        None => None,
    }
}
