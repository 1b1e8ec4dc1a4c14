//! Names one after another in one run of bytes, so that they take no more memory than they have bytes.

ghost use Rattle.std.specs.Prelude.{◌≡◌, ◌≢◌, ◌≤◌, ◌↔◌, [], ◌∷◌, ◌++◌, IfOk, IsTrue, OnOk};
ghost use Rattle.std.specs.Prelude.{drop, length, take};
ghost use Rattle.name_crypt.specs.Plain.{IsStored};
ghost use Rattle.name_crypt.specs.StoredName.{plain_name};
ghost use Rattle.mount_names.specs.NamePages.{names_of};

use name_crypt::NameCipher;
use std::alloc::{AllocError, Global};
use std::marker::Model;

/// Names in the order in which they were pushed. In contracts it is their list.
#[derive(Drop)]
pub(crate) struct PackedNames {
    bytes: Vec<u8>,
    lens: Vec<usize>,
}

impl Model for PackedNames {
    ghost use Rattle.std.specs.Prelude.{◌≡◌, ℕ, List, length};
    ghost use Rattle.std.specs.List.{sum};
    ghost use Rattle.mount_names.specs.PackedNames.{parts_of};

    ghost Value = { List (List ℕ) };

    ghost view = { λ names. parts_of names.lens.items names.bytes.items };

    ghost invariant = { λ names. sum names.lens.items ≡ length names.bytes.items };
}

impl PackedNames {
    /// Returns an empty list, with capacity for the lengths of `count` names.
    pub(crate) fn new(alloc: Global, count: usize) -> Result<PackedNames, AllocError>
        ensures { IfOk result (λ names. names ≡ []) }
    {
        Ok(PackedNames {
            bytes: Vec::new(alloc),
            lens: Vec::with_capacity(alloc, count)?,
        })
    }

    /// Appends a name.
    pub(crate) fn push(&mut self, name: &[u8]) -> Result<(), AllocError>
        ensures { OnOk result (self.new ≡ self.old ++ name.now ∷ []) }
    {
        self.lens.reserve(1)?;
        self.bytes.extend_from_slice(name)?;
        self.lens.push_reserved(name.len());
        Ok(())
    }

    /// Appends a stored name and decrypts it there. Returns whether that gives a name; if it gives none,
    /// nothing is added.
    pub(crate) fn push_decrypted(
        &mut self,
        cipher: &NameCipher,
        stored: &[u8],
    ) -> Result<bool, AllocError>
        requires stored { IsStored stored.now }
        ensures named { IfOk result (λ named. IsTrue named
            ↔ (plain_name cipher.now.key cipher.now.start stored.now ≢ [])) }
        ensures pushed { OnOk result (plain_name cipher.now.key cipher.now.start stored.now ≢ []
            → self.new ≡ self.old ++ plain_name cipher.now.key cipher.now.start stored.now ∷ []) }
        ensures none { OnOk result (plain_name cipher.now.key cipher.now.start stored.now ≡ []
            → self.new ≡ self.old) }
    {
        self.lens.reserve(1)?;
        let start = self.bytes.len();
        self.bytes.extend_from_slice(stored)?;
        let len = decrypt_end(&mut self.bytes, start, cipher);
        if len == 0 {
            return Ok(false);
        }
        self.lens.push_reserved(len);
        Ok(true)
    }

    /// Returns references to the names, in their order.
    pub(crate) fn references(&self, alloc: Global) -> Result<Vec<&[u8]>, AllocError>
        ensures { IfOk result (λ names. names_of names.items ≡ self.now) }
    {
        let mut names = Vec::with_capacity(alloc, self.lens.len())?;
        let mut rest = self.bytes.as_slice();
        'each: for len in &self.lens {
            let (name, behind) = rest.split_at(*len);
            names.push(name)?;
            rest = behind;
        }
        Ok(names)
    }
}

// Decrypts the stored name from `start` to the end in place, and leaves the plain one. Returns its length.
fn decrypt_end(bytes: &mut Vec<u8>, start: usize, cipher: &NameCipher) -> usize
    requires within { start ≤ length bytes.old.items }
    requires stored { IsStored (drop start bytes.old.items) }
    ensures text { bytes.new.items ≡ take start bytes.old.items
        ++ plain_name cipher.now.key cipher.now.start (drop start bytes.old.items) }
    ensures len { result ≡ length (plain_name cipher.now.key cipher.now.start (drop start bytes.old.items)) }
{
    let len = cipher.decrypt_in_place(&mut bytes[start..]);
    bytes.truncate(start + len);
    len
}
