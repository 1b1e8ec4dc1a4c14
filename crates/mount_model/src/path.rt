//! Paths and their parts.

ghost use Rattle.std.specs.Prelude.{◌≡◌, ◌↔◌, ℕ, List, [], ◌∷◌, ◌++◌, IsTrue, IfOk};
ghost use Rattle.std.specs.Prelude.{OnOk, OnErr, length, option_copied, slice_get};
ghost use Rattle.mount_model.specs.Carried.{IsPart, IsPath};

use super::Bytes;
use super::limits::{MAX_PART_BYTES, MAX_PARTS};
use item_list::Items;
use std::alloc::{AllocError, Global};
use std::marker::Model;

/// One part of a path: a name, or in a directory whose key is absent the text of a name. In clauses it is
/// its bytes.
pub struct Part {
    bytes: Bytes,
}

// Written, not derived, so that a crate that drops a part needn't prove how that is done.
impl Drop for Part {
    fn drop(self) {
        let Part { bytes: _ } = self;
    }
}

impl Model for Part {
    ghost Value = { List ℕ };

    ghost view = { λ part. part.bytes };
}

impl Part {
    /// Returns the part of these bytes. `Call::fits` decides whether a call may carry it.
    pub fn new(bytes: Bytes) -> Part
        ensures { result ≡ bytes }
    {
        Part { bytes }
    }

    /// Returns the bytes of the part.
    pub fn bytes(&self) -> &[u8]
        ensures { result.now ≡ self.now }
    {
        self.bytes.as_slice()
    }

    /// Returns a part of the same bytes, in memory of its own.
    pub fn copy(&self, alloc: Global) -> Result<Part, AllocError>
        ensures { IfOk result (λ copy. copy ≡ self.now) }
    {
        let bytes = self.bytes.copy(alloc)?;
        Ok(Part { bytes })
    }

    // Whether a call may carry the part.
    pub(crate) fn fits(&self) -> bool
        ensures { IsTrue result ↔ IsPart self.now }
    {
        let bytes = self.bytes.as_slice();
        bytes.len() <= MAX_PART_BYTES
            && bytes != b"".as_slice()
            && bytes != b".".as_slice()
            && bytes != b"..".as_slice()
            && bytes.iter().all(|byte| *byte != b'/' && *byte != 0)
    }
}

/// A path from the root of the mount: its parts in order, none for the root itself. In clauses it is the
/// list of their bytes.
pub struct Path {
    parts: Items<Part>,
}

// Written, not derived, so that a crate that drops a path needn't prove how that is done.
impl Drop for Path {
    fn drop(self) {
        let Path { parts: _ } = self;
    }
}

impl Model for Path {
    ghost Value = { List (List ℕ) };

    ghost view = { λ path. path.parts };
}

impl Path {
    /// Returns the path of the root, which has no part. It takes no memory.
    pub fn root(alloc: Global) -> Path
        ensures { result ≡ [] }
    {
        Path {
            parts: Items::new(alloc),
        }
    }

    /// Appends a part. After an error the path is as before.
    pub fn push(&mut self, part: Part) -> Result<(), AllocError>
        ensures appended { OnOk result (self.new ≡ self.old ++ part ∷ []) }
        ensures kept { OnErr result (self.new ≡ self.old) }
    {
        self.parts.push(part)
    }

    /// Returns the part at the index, counted from 0; `None` from the number of parts on.
    pub fn part(&self, index: usize) -> Option<&Part>
        ensures { option_copied result ≡ slice_get self.now index }
    {
        self.parts.get(index)
    }

    /// Returns the parts, from the root on.
    pub fn parts(&self) -> &[Part]
        ensures { result.now ≡ self.now }
    {
        self.parts.as_slice()
    }

    /// Returns the number of parts.
    pub fn len(&self) -> usize
        ensures { result ≡ length self.now }
    {
        self.parts.len()
    }

    /// Returns whether the path has no part, and so is the path of the root.
    pub fn is_empty(&self) -> bool
        ensures { IsTrue result ↔ (self.now ≡ []) }
    {
        self.parts.is_empty()
    }

    /// Returns a path of the same parts, in memory of its own.
    pub fn copy(&self, alloc: Global) -> Result<Path, AllocError>
        ensures { IfOk result (λ copy. copy ≡ self.now) }
    {
        let mut copy = Path::root(alloc);
        'parts: for part in self.parts.as_slice() {
            copy.push(part.copy(alloc)?)?;
        }
        Ok(copy)
    }

    // Whether a call may carry the path.
    pub(crate) fn fits(&self) -> bool
        ensures { IsTrue result ↔ IsPath self.now }
    {
        self.parts.len() <= MAX_PARTS && self.parts.iter().all(|part| part.fits())
    }
}
