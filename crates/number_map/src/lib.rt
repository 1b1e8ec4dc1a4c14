//! Finite maps by number: values of any type, each under a number that the caller picks.
#![tactic(auto)]

ghost use Rattle.std.specs.Prelude.{◌≡◌, IsSome, OnOk, OnErr, option_copied};
ghost use Rattle.std.specs.Option.{option_copied_mut};
ghost use Rattle.std.specs.Borrow.{sem};
ghost use Rattle.slab.specs.Slab.{get, slab_len, Updates};
ghost use Rattle.number_map.specs.Numbered as map;

mod iter;
mod laws;
mod rising;
mod rising_iter;
mod row;

pub use iter::Iter;
pub use laws::{changes_keep_agreement, changes_leave_the_rest, entries_agree_where_maps_do};
pub use rising::RisingMap;
pub use rising_iter::{Entries, Values};
use slab::Slab;
use std::alloc::{AllocError, Global};
use std::marker::Model;

/// A map from numbers to values, seen as the finite map of its values by number.
///
/// Numbers are expected to come from a counter. Then a look-up, an insertion and a removal take the same
/// time for any number of values (`RisingMap`).
#[derive(Drop)]
pub struct NumberMap<V> {
    slots: Slab<V>,
    // The key of each number's slot.
    index: RisingMap<usize>,
}

impl<V> Model for NumberMap<V> {
    ghost use Rattle.std.specs.FinMap.{FinMap, code};
    ghost use Rattle.std.specs.Ordering.{nat_cmp};
    ghost use Rattle.std.specs.Coded.{coded_ℕ};
    ghost use Rattle.number_map.specs.Slots.{stored, IsSound};

    ghost Value = { FinMap nat_cmp V };

    ghost coded = { code coded_ℕ V.code };

    ghost view = { λ a. stored a.slots a.index };

    ghost invariant = { λ a. IsSound a.slots a.index };
}

impl<V: Drop> NumberMap<V> {
    ghost use Rattle.number_map.specs.ValueWrites.{WritesValue};

    /// Returns an empty map. Allocates nothing.
    pub fn new(alloc: Global) -> Self
        ensures { result ≡ map.empty }
    {
        NumberMap {
            slots: Slab::new(alloc),
            index: RisingMap::new(alloc),
        }
    }

    /// Returns how many numbers have a value.
    pub fn len(&self) -> usize
        ensures { result ≡ map.len self.now }
    {
        self.index.len()
    }

    /// Returns the value at `number`, if there is one.
    pub fn get(&self, number: u32) -> Option<&V>
        ensures { option_copied result ≡ map.get self.now number }
    {
        match self.index.get(number as u64) {
            Some(key) => self.slots.get(*key),
            None => None,
        }
    }

    /// Iterates over the numbers and their values, by rising number.
    pub fn iter(&self) -> Iter<'_, V>
        ensures rest { result ≡ map.entries self.now }
    {
        Iter {
            index: self.index.iter(),
            slots: &self.slots,
        }
    }

    /// Returns the value at `number` for writing, if there is one. The values at other numbers stay.
    pub fn get_mut(&mut self, number: u32) -> Option<&mut V>
        ensures* writes_back { sem 𝓛 (WritesValue V.row self.entry number result) }
        ensures value { option_copied_mut result ≡ map.get self.old number }
    {
        let Some(&key) = self.index.get(number as u64) else {
            return None;
        };
        self.slots.get_mut(key)
    }

    /// Puts `value` at `number`, replacing the value that is there, if any.
    ///
    /// The only error is out of memory, and only if the number has no value. The map is then unchanged,
    /// and no slot stores `value`.
    pub fn set(&mut self, number: u32, value: V) -> Result<(), AllocError>
        ensures put { OnOk result (self.new ≡ map.insert self.old number value) }
        ensures kept { OnErr result (self.new ≡ self.old) }
        ensures only_new { OnErr result (map.get self.old number ≡ None) }
    {
        if let Some(&key) = self.index.get(number as u64) {
            replace(&mut self.slots, key, value);
            return Ok(());
        }
        self.slots.reserve(1)?;
        let key = self.slots.vacant_key();
        self.index.put(number as u64, key)?;
        self.slots.insert_reserved(value);
        Ok(())
    }

    /// Removes the value at `number` and returns it, if there is one. Allocates nothing.
    pub fn remove(&mut self, number: u32) -> Option<V>
        ensures value { result ≡ map.get self.old number }
        ensures removed { self.new ≡ map.remove self.old number }
    {
        match self.index.remove(number as u64) {
            Some(key) => self.slots.try_remove(key),
            None => None,
        }
    }
}

// Writes `value` into the slot under `key`.
fn replace<V: Drop>(slots: &mut Slab<V>, key: usize, value: V)
    requires { IsSome (get slots.old key) }
    ensures updates { Updates slots.old slots.new key (Some value) }
    ensures counted { slab_len slots.new ≡ slab_len slots.old }
{
    match slots.get_mut(key) {
        Some(slot) => *slot = value,
        None => unreachable!(),
    }
}
