//! Laws of records, as functions that do nothing: their contracts are the laws.

ghost use Rattle.std.specs.Prelude.{◌≡◌, ◌≢◌, ℕ, List, Some};
ghost use Rattle.meta_files.specs.Records.{RecordList, record_of, with_record};

/// Does nothing. Its contract is the law that writing a record changes what is found under its name, and
/// under no other.
pub fn writing_changes_one_record()
    ensures written { (records : RecordList) (name : List ℕ) (version : ℕ) (bytes : List ℕ)
        → record_of (with_record records name version bytes) name ≡ Some (version, bytes) }
    ensures others { (records : RecordList) (name : List ℕ) (version : ℕ) (bytes : List ℕ) (other : List ℕ)
        → name ≢ other → record_of (with_record records name version bytes) other ≡ record_of records other }
{}
