//! At most `N` bytes in the value: nothing is allocated, and a copy is a copy of the bytes.

ghost use Rattle.std.specs.Prelude.{◌≡◌, ℕ, ◌+◌, ◌≤◌, [], ◌++◌, length, drop, replicate};
ghost use Rattle.std.specs.Prelude.{nat_eq, IsSome, IfSome, IsTrue, ◌↔◌};
ghost use Rattle.std.specs.Cmp.{on_equiv, on_per, partial_equiv_from_equiv};
ghost use Rattle.std.specs.Cmp.Lexicographic.{pointwise, nat_list_eq_equiv};
ghost use Rattle.std.specs.Cmp.Rules.{hashing};
ghost use Rattle.std.specs.Hash as fed;
ghost use Rattle.std.proofs.Common.{rules};
ghost use Rattle.byte_words.specs.Bytes.{AreBytes};

use byte_words::wipe;
use std::fmt;
use std::hash::{Hash, Hasher};
use std::marker::Model;

/// At most `N` bytes. The places after them are zero, so that nothing of longer bytes is left there.
#[derive(Clone, Copy)]
pub struct Filled<const N: usize> {
    places: [u8; N],
    len: usize,
}

impl<const N: usize> Model for Filled<N> {
    ghost use Rattle.std.specs.Prelude.{◌≡◌, ℕ, ◌+◌, ◌-◌, ◌≤◌, List, ◌++◌, length, take, replicate};
    ghost use Rattle.std.proofs.Common.{arith, ap, sym, ◌∙◌};
    ghost use Rattle.byte_words.specs.Bytes.{AreBytes};
    ghost use Rattle.std.proofs.lemmas.List.{length-take-le};

    ghost Value = { List ℕ };

    ghost view = { λ f. take f.len f.places };

    ghost invariant = { λ f. (f.len ≤ N) × (length f.places ≡ N)
        × (f.places ≡ take f.len f.places ++ replicate (N - f.len) 0) × AreBytes f.places };

    ghost inverse = { λ bytes. record {
      places = bytes ++ replicate (N - length bytes) 0;
      len = length bytes;
    } };

    ghost inverse_ok = { λ f h i. record {
      places = (ap (λ n. take f.len f.places ++ replicate (N - n) 0)
          (length-take-le f.len f.places (omega (arith, h.0, h.1))) ∙ sym h.2) i;
      len = length-take-le f.len f.places (omega (arith, h.0, h.1)) i;
    } };
}

impl<const N: usize> Filled<N> {
    /// Returns a value without bytes.
    pub fn new() -> Self
        ensures { result ≡ [] }
    {
        Filled {
            places: [0; N],
            len: 0,
        }
    }

    /// Returns a value of these bytes, of which there are at most `N`.
    pub fn of(bytes: &[u8]) -> Self
        requires fits { length bytes.now ≤ N }
        ensures { result ≡ bytes.now }
    {
        let len = bytes.len();
        let mut places = [0; N];
        places[..len].copy_from_slice(bytes);
        Filled { places, len }
    }

    /// Returns a value of these bytes, or `None` if there are more than `N`.
    pub fn read(bytes: &[u8]) -> Option<Self>
        ensures value { IfSome result (λ filled. filled ≡ bytes.now) }
        ensures fits { IsSome result ↔ (length bytes.now ≤ N) }
    {
        if bytes.len() > N {
            return None;
        }
        Some(Filled::of(bytes))
    }

    /// Appends more bytes. Together they are at most `N`.
    pub fn append(&mut self, more: &[u8])
        requires fits { length self.old + length more.now ≤ N }
        ensures { self.new ≡ self.old ++ more.now }
    {
        let start = self.len;
        let end = start + more.len();
        let places = &mut self.places[..];
        places[start..end].copy_from_slice(more);
        self.len = end;
    }

    /// Wipes the bytes in place and replaces them by these, which are at most `N`.
    pub fn set(&mut self, bytes: &[u8])
        requires fits { length bytes.now ≤ N }
        ensures { self.new ≡ bytes.now }
    {
        write_over(&mut self.places, bytes);
        self.len = bytes.len();
    }

    /// Writes a zero over each byte in place. There are as many as before.
    pub fn wipe(&mut self)
        ensures { self.new ≡ replicate (length self.old) 0 }
    {
        wipe(&mut self.places);
    }

    /// Returns how many bytes there are.
    pub fn len(&self) -> usize
        ensures value { result ≡ length self.now }
        ensures bound { result ≤ N }
    {
        self.len
    }

    /// Returns whether there are no bytes.
    pub fn is_empty(&self) -> bool
        ensures { IsTrue result ↔ (self.now ≡ []) }
    {
        self.bytes().is_empty()
    }

    /// Returns the bytes.
    pub fn bytes(&self) -> &[u8]
        ensures value { result.now ≡ self.now }
        ensures bound { length result.now ≤ N }
        ensures ranged { AreBytes result.now }
    {
        &self.places[..self.len]
    }
}

// Wipes the places, then writes the bytes at their beginning; the places after them are zeros.
fn write_over<const N: usize>(places: &mut [u8; N], bytes: &[u8])
    requires fits { length bytes.now ≤ N }
    ensures { places.new ≡ bytes.now ++ drop (length bytes.now) (replicate N 0) }
{
    wipe(places);
    places[..bytes.len()].copy_from_slice(bytes);
}

impl<const N: usize> PartialEq for Filled<N> {
    ghost eq = { λ a b. pointwise nat_eq a b };

    ghost laws = { on_per (λ bytes. bytes) (partial_equiv_from_equiv nat_list_eq_equiv) };

    fn eq(&self, other: &Self) -> bool {
        self.bytes() == other.bytes()
    }
}

impl<const N: usize> Eq for Filled<N> {
    ghost laws = { on_equiv (λ bytes. bytes) nat_list_eq_equiv };
}

impl<const N: usize> Hash for Filled<N> {
    ghost hash_input = { λ bytes. fed.slice fed.u8 bytes };

    ghost respects_eq = { Prim.search (hashing, rules) };

    fn hash<H: Hasher>(&self, state: &mut H) {
        self.bytes().hash(state);
    }
}

impl<const N: usize> fmt::Debug for Filled<N> {
    fn fmt<W: fmt::Write>(&self, f: &mut fmt::Formatter<W>) -> fmt::Result {
        self.bytes().fmt(f)
    }
}
