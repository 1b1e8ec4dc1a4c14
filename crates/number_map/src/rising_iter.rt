//! The iterations over a `RisingMap`.
ghost use Rattle.std.specs.Iterator.{YieldsFirstBy, item_count};

use crate::row::Slot;
use std::iter::FusedIterator;
use std::marker::Model;

/// The numbers with their values, by rising number, seen as the list of those that are left.
#[derive(Drop)]
pub struct Entries<'a, V> {
    pub(crate) slots: &'a [Slot<V>],
}

impl<'a, V> Model for Entries<'a, V> {
    ghost use Rattle.std.specs.Prelude.{ℕ, List};
    ghost use Rattle.number_map.specs.Rising.{pairs_of_slots};

    ghost Value = { List (ℕ × V) };

    ghost view = { λ it. pairs_of_slots it.slots.now };
}

impl<'a, V> Iterator for Entries<'a, V> {
    type Item = (u64, &'a V);

    ghost next_gives = { YieldsFirstBy (λ item. (item.0, item.1.now)) (λ rest. rest) };

    ghost remaining = { item_count (λ rest. rest) };

    fn next(&mut self) -> Option<(u64, &'a V)> {
        while let Some((slot, rest)) = self.slots.split_first() {
            self.slots = rest;
            if let Some(value) = &slot.value {
                return Some((slot.number, value));
            }
        }
        None
    }
}

impl<'a, V> FusedIterator for Entries<'a, V> {}

/// The values by rising number, seen as the list of those that are left.
#[derive(Drop)]
pub struct Values<'a, V> {
    pub(crate) entries: Entries<'a, V>,
}

impl<'a, V> Model for Values<'a, V> {
    ghost use Rattle.std.specs.Prelude.{List};
    ghost use Rattle.std.specs.Map.{values_of};

    ghost Value = { List V };

    ghost view = { λ it. values_of it.entries };
}

impl<'a, V> Iterator for Values<'a, V> {
    type Item = &'a V;

    ghost next_gives = { YieldsFirstBy (λ item. item.now) (λ rest. rest) };

    ghost remaining = { item_count (λ rest. rest) };

    fn next(&mut self) -> Option<&'a V> {
        match self.entries.next() {
            Some((_number, value)) => Some(value),
            None => None,
        }
    }
}

impl<'a, V> FusedIterator for Values<'a, V> {}
