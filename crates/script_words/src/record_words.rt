//! The words for records: `protector/` or `policy/`, and a label.

ghost use Rattle.std.specs.Prelude.{◌≡◌};
ghost use Rattle.script_words.specs.Records as records;

use short_bytes::Label;

/// A record of the mount. Its name is `protector/` or `policy/` and the label.
#[derive(Clone, Copy, Debug, PartialEq, Eq)]
pub enum Record {
    Protector(Label),
    Policy(Label),
}

/// Returns the record that the word names, if it names one.
pub fn read_record(word: &[u8]) -> Option<Record>
    ensures { result ≡ records.record_of word.now }
{
    if word.starts_with(b"protector/") {
        return Label::read(&word[10..]).map(Record::Protector);
    }
    if word.starts_with(b"policy/") {
        return Label::read(&word[7..]).map(Record::Policy);
    }
    None
}
