//! `Items<T>`, the list type of the product: contracts see it as the list of its items, in order.
#![tactic(auto)]

ghost use Rattle.std.specs.Prelude.{◌≡◌, ◌<◌, ◌^◌, ◌↔◌, List, [], ◌∷◌, ◌++◌, length, IsTrue};
ghost use Rattle.std.specs.Prelude.{IfSome, IfNone, OnOk, OnErr, IfOk, option_copied, slice_get};
ghost use Rattle.std.specs.Iterator.Adapters.{IterYieldsInOrder};
ghost use Rattle.std.specs.Slice.Iter.{iter_rest};

use std::alloc::{AllocError, Global};
use std::marker::Model;
use std::slice;

/// A list of bytes.
pub type Bytes = Items<u8>;

/// A list that grows and shrinks at its end. In clauses it is the list of its items.
pub struct Items<T: Drop> {
    items: Vec<T>,
}

// Written, and not derived, so that a crate that drops a list needn't prove how that is done.
impl<T: Drop> Drop for Items<T> {
    fn drop(self) {
        let Items { items: _ } = self;
    }
}

impl<T: Drop> Model for Items<T> {
    ghost Value = { List T };

    ghost view = { λ list. list.items.items };
}

impl<T: Drop> Items<T> {
    /// Returns the empty list. Allocates nothing before the first push.
    pub fn new(alloc: Global) -> Self
        ensures { result ≡ [] }
    {
        Items {
            items: Vec::new(alloc),
        }
    }

    /// Returns a list of the items of the vector, in its own memory.
    pub fn from_vec(items: Vec<T>) -> Self
        ensures { result ≡ items.items }
    {
        Items { items }
    }

    /// Returns the vector of the items, in the list's own memory.
    pub fn into_vec(self) -> Vec<T>
        ensures { result.items ≡ self }
    {
        let Items { items } = self;
        items
    }

    /// Appends the item. After an error, which is out of memory, the list is as before.
    pub fn push(&mut self, item: T) -> Result<(), AllocError>
        ensures appended { OnOk result (self.new ≡ self.old ++ item ∷ []) }
        ensures kept { OnErr result (self.new ≡ self.old) }
    {
        self.items.push(item)?;
        Ok(())
    }

    /// Removes the last item and returns it, or returns `None` if there is none.
    pub fn pop(&mut self) -> Option<T>
        ensures last { IfSome result (λ item. self.old ≡ self.new ++ item ∷ []) }
        ensures empty { IfNone result ((self.old ≡ []) × (self.new ≡ [])) }
    {
        self.items.pop()
    }

    /// Returns how many items the list has.
    pub fn len(&self) -> usize
        ensures { result ≡ length self.now }
    {
        self.items.len()
    }

    /// Returns whether the list has no item.
    pub fn is_empty(&self) -> bool
        ensures { IsTrue result ↔ (self.now ≡ []) }
    {
        self.items.is_empty()
    }

    /// Returns the item at the index, counted from 0, or `None` from the length on.
    pub fn get(&self, index: usize) -> Option<&T>
        ensures { option_copied result ≡ slice_get self.now index }
    {
        self.items.get(index)
    }

    /// Returns the items as a slice.
    pub fn as_slice(&self) -> &[T]
        ensures { result.now ≡ self.now }
    {
        self.items.as_slice()
    }

    /// Returns an iterator over the items, the first one first.
    pub fn iter(&self) -> slice::Iter<'_, T>
        ensures rest { iter_rest result ≡ self.now }
        ensures bound { length (iter_rest result) < 2 ^ 64 }
        ensures runs { IterYieldsInOrder T }
    {
        self.items.iter()
    }
}

impl Items<u8> {
    /// Returns a list of the same bytes, in memory of its own.
    pub fn copy(&self, alloc: Global) -> Result<Bytes, AllocError>
        ensures { IfOk result (λ copy. copy ≡ self.now) }
    {
        let items = Vec::from_slice(alloc, self.as_slice())?;
        Ok(Items { items })
    }
}
