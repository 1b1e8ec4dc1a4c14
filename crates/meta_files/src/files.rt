//! The records themselves, in the order in which they were first stored.

ghost use Rattle.std.specs.Prelude.{◌≡◌, ◌+◌, ℕ, List, [], ◌∷◌, ◌++◌, length, IfSome};
ghost use Rattle.std.specs.Prelude.{IfNone, IfOk, IsOk, IsOkUnless, OnErr, None};
ghost use Rattle.meta_files.specs.Records.{record_of, version_of, with_record};
ghost use Rattle.meta_files.specs.Faults.{store_fault};
ghost use Rattle.meta_files.specs.Kept.{rewrite_fault, append_fault};
ghost use Rattle.meta_files.specs.Indexed.{IsIndexed, place_in};

use super::{Bytes, StoreFault};
use crate::name_index::{Index, add_name, drop_name, place_of};
use std::alloc::{AllocError, Global};
use std::collections::BTreeMap;
use std::marker::Model;

/// The maximal number of bytes of a record.
pub const MAX_RECORD_BYTES: usize = 8_192;

/// The maximal number of records.
pub const MAX_RECORDS: usize = 1_024;

/// The last version that a record can have.
pub const LAST_VERSION: u32 = 4_294_967_295;

/// A record as it is stored.
#[derive(Drop)]
struct Record {
    name: Bytes,
    version: u32,
    bytes: Bytes,
}

/// The records of a mount. In clauses it is the list of (name, (version, bytes)).
///
/// A record is found in a time that grows with the logarithm of their number.
pub struct MetaFiles {
    records: Vec<Record>,
    index: Index,
}

// Implemented, not derived, so that a crate that drops the records needn't prove how their drop works.
impl Drop for MetaFiles {
    fn drop(self) {
        let MetaFiles {
            records: _,
            index: _,
        } = self;
    }
}

impl Model for MetaFiles {
    ghost use Rattle.std.specs.Prelude.{ℕ, List};
    ghost use Rattle.meta_files.specs.Kept.{pairs_of};
    ghost use Rattle.meta_files.specs.Indexed.{IsIndexed};

    ghost Value = { List (List ℕ × (ℕ × List ℕ)) };

    ghost view = { λ files. pairs_of files.records.items };

    ghost invariant = { λ files. IsIndexed files.records.items files.index.entries };
}

impl MetaFiles {
    /// Returns an empty list of records. Allocates nothing before the first one is stored.
    pub fn new(alloc: Global) -> MetaFiles
        ensures { result ≡ [] }
    {
        MetaFiles {
            records: Vec::new(alloc),
            index: BTreeMap::new(alloc),
        }
    }

    /// Returns the version and a copy of the bytes of the record of this name, or `None` if there is
    /// none. The only error is out of memory. Only the copy allocates, so there is no error if there is
    /// no record.
    pub fn load(&self, alloc: Global, name: &[u8]) -> Result<Option<(u32, Bytes)>, AllocError>
        ensures found { IfOk result (λ found. found ≡ record_of self.now name.now) }
        ensures absent { record_of self.now name.now ≡ None → IsOk result }
    {
        let Some(place) = place_of(&self.index, name) else {
            return Ok(None);
        };
        let kept = &self.records[place];
        let bytes = kept.bytes.copy(alloc)?;
        Ok(Some((kept.version, bytes)))
    }

    /// Stores the bytes under the name, and returns the record's new version. `expected` is the version
    /// that the record must have now: 0 if there must be none. After an error the records are unchanged.
    /// Returns
    /// - `TooBig` if there are more than 8,192 bytes,
    /// - otherwise `Changed` if the record has another version,
    /// - otherwise `NoSpace` if a new record would exceed 1,024, or the version can't rise any more.
    ///
    /// Otherwise the only error is `NoMemory`.
    pub fn store(
        &mut self,
        alloc: Global,
        name: &[u8],
        expected: u32,
        bytes: &[u8],
    ) -> Result<u32, StoreFault>
        ensures version { IfOk result (λ version. version ≡ version_of self.old name.now + 1) }
        ensures stored { IfOk result (λ version. self.new ≡ with_record self.old name.now version bytes.now) }
        ensures kept { OnErr result (self.new ≡ self.old) }
        ensures refused { IfSome (store_fault self.old name.now expected bytes.now)
            (λ fault. result ≡ Err fault) }
        ensures accepted { IfNone (store_fault self.old name.now expected bytes.now)
            (IsOkUnless result StoreFault.NoMemory) }
    {
        if bytes.len() > MAX_RECORD_BYTES {
            return Err(StoreFault::TooBig);
        }
        let Some(place) = place_of(&self.index, name) else {
            return append(
                alloc,
                &mut self.records,
                &mut self.index,
                name,
                expected,
                bytes,
            );
        };
        let version = next_version(self.records[place].version, expected)?;
        let bytes = Bytes::from_vec(Vec::from_slice(alloc, bytes)?);
        let kept = &mut self.records[place];
        kept.version = version;
        kept.bytes = bytes;
        Ok(version)
    }
}

// The version after this one, if this one is expected.
fn next_version(version: u32, expected: u32) -> Result<u32, StoreFault>
    ensures next { IfOk result (λ next. next ≡ version + 1) }
    ensures refused { IfSome (rewrite_fault version expected) (λ fault. result ≡ Err fault) }
    ensures accepted { IfNone (rewrite_fault version expected) (IsOk result) }
{
    if version != expected {
        return Err(StoreFault::Changed { version });
    }
    version.checked_add(1).ok_or(StoreFault::NoSpace)
}

// Appends a new record of version 1, and adds its place to the index.
fn append(
    alloc: Global,
    records: &mut Vec<Record>,
    index: &mut Index,
    name: &[u8],
    expected: u32,
    bytes: &[u8],
) -> Result<u32, StoreFault>
    requires indexed { IsIndexed records.old.items index.old.entries }
    requires absent { place_in records.old.items name.now ≡ None }
    ensures written { IfOk result (λ version. records.new.items
        ≡ records.old.items ++ record { name = name.now; version = version; bytes = bytes.now } ∷ []) }
    ensures version { IfOk result (λ version. version ≡ 1) }
    ensures indexed { IsIndexed records.new.items index.new.entries }
    ensures kept { OnErr result (records.new.items ≡ records.old.items) }
    ensures refused { IfSome (append_fault (length records.old.items) expected)
        (λ fault. result ≡ Err fault) }
    ensures accepted { IfNone (append_fault (length records.old.items) expected)
        (IsOkUnless result StoreFault.NoMemory) }
{
    if expected != 0 {
        return Err(StoreFault::Changed { version: 0 });
    }
    let place = records.len();
    if place >= MAX_RECORDS {
        return Err(StoreFault::NoSpace);
    }
    let record = Record {
        name: Bytes::from_vec(Vec::from_slice(alloc, name)?),
        version: 1,
        bytes: Bytes::from_vec(Vec::from_slice(alloc, bytes)?),
    };
    add_name(index, alloc, name, place)?;
    if records.push(record).is_err() {
        drop_name(index, name);
        return Err(StoreFault::NoMemory);
    }
    Ok(1)
}
