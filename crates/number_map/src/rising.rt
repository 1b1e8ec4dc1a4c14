//! Values by rising number, in one row.
ghost use Rattle.std.specs.Prelude.{◌≡◌, [], length, OnOk, OnErr, None, option_copied};
ghost use Rattle.std.specs.List.Sorted.{IsStrictlySortedBy};
ghost use Rattle.std.specs.Map.{keys_of, remove_entry, values_of};
ghost use Rattle.std.specs.BTreeMap.{insert_entry};
ghost use Rattle.std.specs.Ordering.{eq_by_cmp, nat_cmp};
ghost use Rattle.number_map.specs.Rising.{value_at};

use crate::rising_iter::{Entries, Values};
use crate::row::{Slot, place_of, put_slot, shorten, take_value};
use std::alloc::{AllocError, Global};
use std::marker::Model;

/// Values by number, seen as the list of the numbers with their values, by rising number.
///
/// Numbers are expected to come from a counter. Then a new one is pushed at the end of the row. A number
/// is found in the last slot, or as many slots after the first as it is greater. Both take the same time
/// for any number of values. Any other number is found by binary search. The slot of a removed value
/// stays empty until clearly more than half of the slots are.
#[derive(Drop)]
pub struct RisingMap<V> {
    slots: Vec<Slot<V>>,
    // How many slots have a value.
    count: usize,
}

impl<V> Model for RisingMap<V> {
    ghost use Rattle.std.specs.Prelude.{ℕ, List};
    ghost use Rattle.number_map.specs.Rising.{pairs_of_slots, IsRising};

    ghost Value = { List (ℕ × V) };

    ghost view = { λ m. pairs_of_slots m.slots.items };

    ghost invariant = { λ m. IsRising m.slots.items m.count };
}

impl<V: Drop> RisingMap<V> {
    /// Returns a map without values. Allocates nothing.
    pub fn new(alloc: Global) -> Self
        ensures { result ≡ [] }
    {
        RisingMap {
            slots: Vec::new(alloc),
            count: 0,
        }
    }

    /// Returns how many numbers have a value.
    pub fn len(&self) -> usize
        ensures value { result ≡ length self.now }
        ensures rising { IsStrictlySortedBy nat_cmp (keys_of self.now) }
    {
        self.count
    }

    /// Returns the value at the number, if there is one.
    pub fn get(&self, number: u64) -> Option<&V>
        ensures { option_copied result ≡ value_at self.now number }
    {
        match place_of(self.slots.as_slice(), number) {
            Some(at) => self.slots[at].value.as_ref(),
            None => None,
        }
    }

    /// Puts the value at the number, replacing the one that is there, if any. The only error is out of
    /// memory; the map is then unchanged.
    pub fn put(&mut self, number: u64, value: V) -> Result<(), AllocError>
        ensures put { OnOk result (self.new ≡ insert_entry nat_cmp self.old number value) }
        ensures kept { OnErr result (self.new ≡ self.old) }
        ensures rising { IsStrictlySortedBy nat_cmp (keys_of self.new) }
    {
        let slot = Slot {
            number,
            value: Some(value),
        };
        let more = put_slot(&mut self.slots, slot)?;
        let _fits = self.slots.len();
        if more {
            self.count += 1;
        }
        Ok(())
    }

    /// Removes the value at the number and returns it, if there is one. Allocates nothing.
    pub fn remove(&mut self, number: u64) -> Option<V>
        ensures value { result ≡ value_at self.old number }
        ensures removed { self.new ≡ remove_entry (eq_by_cmp nat_cmp number) self.old }
        ensures gone { value_at self.new number ≡ None }
        ensures rising { IsStrictlySortedBy nat_cmp (keys_of self.new) }
    {
        let at = place_of(self.slots.as_slice(), number)?;
        let gone = take_value(&mut self.slots, at)?;
        self.count -= 1;
        shorten(&mut self.slots, self.count);
        Some(gone)
    }

    /// Iterates over the numbers with their values, by rising number.
    pub fn iter(&self) -> Entries<'_, V>
        ensures rest { result ≡ self.now }
        ensures rising { IsStrictlySortedBy nat_cmp (keys_of self.now) }
    {
        Entries {
            slots: self.slots.as_slice(),
        }
    }

    /// Iterates over the values, by rising number.
    pub fn values(&self) -> Values<'_, V>
        ensures { result ≡ values_of self.now }
    {
        Values {
            entries: self.iter(),
        }
    }
}
