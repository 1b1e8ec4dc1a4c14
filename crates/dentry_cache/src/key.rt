//! A name of a directory.

ghost use Rattle.std.specs.Prelude.{◌≡◌, ◌≤◌, length};

use crate::limits::MAX_CACHED_NAME_BYTES;
use short_bytes::Filled;
use std::hash::{Hash, Hasher};

/// A name of a directory, under which the node that it resolves to is cached.
#[derive(Clone, Copy, Debug, PartialEq, Eq)]
pub struct NameKey {
    /// The number of the directory.
    pub dir: u32,
    /// The bytes of the name.
    pub name: Filled<MAX_CACHED_NAME_BYTES>,
}

impl NameKey {
    // The name of the directory.
    pub(crate) fn of(dir: u32, name: &[u8]) -> NameKey
        requires short { length name.now ≤ MAX_CACHED_NAME_BYTES }
        ensures { result ≡ record { dir = dir; name = name.now } }
    {
        NameKey {
            dir,
            name: Filled::of(name),
        }
    }
}

// Implemented manually: the bytes are fed in one piece.
impl Hash for NameKey {
    ghost use Rattle.std.specs.Prelude.{[], ◌∷◌, ◌++◌};
    ghost use Rattle.std.specs.Cmp.{unsigned_Decides};
    ghost use Rattle.std.specs.Hash as fed;
    ghost use Rattle.std.specs.Hash.{and-Alike, on_Alike, same_Alike};
    ghost use Rattle.std.proofs.lemmas.Slice.Eq.{bytes_eq-Decides};

    ghost hash_input = { λ key. fed.u32 key.dir ++ (key.name ∷ []) };

    ghost respects_eq = { (and-Alike (on_Alike (λ key. key.dir) (same_Alike fed.u32 unsigned_Decides))
        (on_Alike (λ key. key.name) (same_Alike (λ name. name ∷ []) bytes_eq-Decides))).fed };

    fn hash<H: Hasher>(&self, state: &mut H) {
        state.write_u32(self.dir);
        state.write(self.name.bytes());
    }
}
