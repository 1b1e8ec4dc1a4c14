//! The iteration over a `NumberMap`, by rising number.
ghost use Rattle.std.specs.Iterator.{YieldsFirstBy, item_count};

use crate::rising_iter::Entries;
use slab::Slab;
use std::iter::FusedIterator;
use std::marker::Model;

/// The numbers and values of a map, by rising number, seen as the list of those that are left.
#[derive(Drop)]
pub struct Iter<'a, V> {
    // The numbers that are left, each with the key of its slot.
    pub(crate) index: Entries<'a, usize>,
    pub(crate) slots: &'a Slab<V>,
}

impl<'a, V> Model for Iter<'a, V> {
    ghost use Rattle.std.specs.Prelude.{ℕ, List};
    ghost use Rattle.number_map.specs.Slots.{pairs_of_index, IsFilled};

    ghost Value = { List (ℕ × V) };

    ghost view = { λ it. pairs_of_index it.slots.now it.index };

    ghost invariant = { λ it. IsFilled it.slots.now it.index };
}

impl<'a, V> Iterator for Iter<'a, V> {
    type Item = (u32, &'a V);

    ghost next_gives = { YieldsFirstBy (λ item. (item.0, item.1.now)) (λ rest. rest) };

    ghost remaining = { item_count (λ rest. rest) };

    fn next(&mut self) -> Option<(u32, &'a V)> {
        let (number, key) = self.index.next()?;
        match self.slots.get(*key) {
            Some(value) => Some((number as u32, value)),
            None => unreachable!(),
        }
    }
}

impl<'a, V> FusedIterator for Iter<'a, V> {}
