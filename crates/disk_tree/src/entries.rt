//! The entries of a directory, in the order in which they were made.
ghost use Rattle.std.specs.Prelude.{◌≡◌, [], length, OnOk, OnErr};
ghost use Rattle.disk_tree.specs.Entries.{HaveByteNames, number_under, with_entry, without_entry};

use crate::held_index::{HeldIndex, oldest_of};
use crate::name_index::{Order, add_last, drop_place, hash_of, next_place};
use item_list::Bytes;
use number_map::{RisingMap, Values};
use std::alloc::{AllocError, Global};
use std::marker::Model;

/// The entries of a directory, in the order in which they were made. In contracts it is the list of pairs
/// of a stored name and a node's number.
///
/// Names are found by their hash.
/// - A look-up, a new entry and a removal take a time that doesn't grow with the length, except as
///   follows.
/// - A new entry sometimes makes the row or the index grow, which moves all of it.
/// - A removal drops the empty slots once they are more than half.
/// - After older entries were removed, an entry's place is found by binary search.
/// - The hash has a fixed seed. A user who picks the names can make them collide, and then a search
///   visits those that do.
/// - Once two entries have had one name, or one hash of 64 bits, each search goes through all entries: at
///   most the 4,096 of a directory.
pub struct DirEntries {
    order: Order,
    index: HeldIndex,
    // Above every place.
    next: u64,
    // Whether two entries ever had one name, or names of one hash. From then on the index isn't used, and the
    // entries are searched.
    doubled: bool,
}

// Implemented, not derived, so that a crate that drops entries needn't prove how their drop works.
impl Drop for DirEntries {
    fn drop(self) {
        let DirEntries {
            order: _,
            index: _,
            next: _,
            doubled: _,
        } = self;
    }
}

impl Model for DirEntries {
    ghost use Rattle.std.specs.Prelude.{ℕ, List};
    ghost use Rattle.std.specs.Map.{values_of};
    ghost use Rattle.disk_tree.specs.Indexed.{IsIndexed};

    ghost Value = { List (List ℕ × ℕ) };

    ghost view = { λ es. values_of es.order };

    ghost invariant = { λ es. IsIndexed es.order es.index es.next es.doubled };
}

impl DirEntries {
    /// Returns an empty list of entries. Allocates nothing before the first entry.
    pub fn new(alloc: Global) -> Self
        ensures { result ≡ [] }
    {
        DirEntries {
            order: RisingMap::new(alloc),
            index: HeldIndex::new(),
            next: 0,
            doubled: false,
        }
    }

    /// Returns the number of entries.
    pub fn len(&self) -> usize
        ensures { result ≡ length self.now }
    {
        self.order.len()
    }

    /// Iterates over the entries, the oldest first.
    pub fn iter(&self) -> Values<'_, (Bytes, u32)>
        ensures rest { result ≡ self.now }
    {
        self.order.values()
    }

    /// Does nothing. Its contract is that the numbers of each stored name are bytes.
    pub fn names_are_bytes(&self)
        ensures { HaveByteNames self.now }
    {
        let _count = self.order.len();
    }

    /// Returns the number under the name. If two entries have one name, the older is found.
    pub fn find(&self, name: &[u8]) -> Option<u32>
        ensures { result ≡ number_under name.now self.now }
    {
        let hash = hash_of(name);
        match oldest_of(&self.order, &self.index, self.doubled, name, hash) {
            Some((_, number)) => Some(number),
            None => None,
        }
    }

    // Appends an entry. After an error the entries are unchanged. The index is changed last, and is
    // searched once: if it had nothing under the hash, no other entry has the name.
    pub(crate) fn push(&mut self, alloc: Global, name: &[u8], number: u32) -> Result<(), AllocError>
        ensures put { OnOk result (self.new ≡ with_entry name.now number self.old) }
        ensures kept { OnErr result (self.new ≡ self.old) }
    {
        let place = self.next;
        let Some(next) = next_place(place) else {
            return Err(AllocError);
        };
        let stored = Bytes::from_vec(Vec::from_slice(alloc, name)?);
        if self.doubled {
            return match add_last(&mut self.order, place, stored, number) {
                Ok(()) => {
                    self.next = next;
                    Ok(())
                }
                Err(_) => Err(AllocError),
            };
        }
        let hash = hash_of(name);
        match add_last(&mut self.order, place, stored, number) {
            Ok(()) => match self.index.add(alloc, hash, (place, number)) {
                Ok(alone) => {
                    self.doubled = !alone;
                    self.next = next;
                    Ok(())
                }
                Err(_) => {
                    drop_place(&mut self.order, place);
                    Err(AllocError)
                }
            },
            Err(_) => Err(AllocError),
        }
    }

    // Removes the oldest entry of this name, and returns its number, or `None` if there is none.
    pub(crate) fn remove(&mut self, name: &[u8]) -> Option<u32>
        ensures number { result ≡ number_under name.now self.old }
        ensures removed { self.new ≡ without_entry name.now self.old }
    {
        let hash = hash_of(name);
        match oldest_of(&self.order, &self.index, self.doubled, name, hash) {
            Some((oldest, number)) => {
                drop_place(&mut self.order, oldest);
                self.index.remove(hash);
                Some(number)
            }
            None => None,
        }
    }
}
