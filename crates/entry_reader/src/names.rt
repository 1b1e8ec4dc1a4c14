//! The first words of replies, and the words of refusals, of states and of kinds.

ghost use Rattle.std.specs.Prelude.{◌≡◌, option_copied};
ghost use Rattle.std.specs.List.{find};
ghost use Rattle.entry_reader.specs.Names as spec;

use mount_model::{KeyState, NodeKind, Refusal};
use reply_text::refusal_name;

// Which reply it is. Each name belongs to one variant of `Reply`.
#[derive(Clone, Copy, Debug, PartialEq, Eq)]
pub(crate) enum ReplyName {
    Added,
    Removed,
    Status,
    Done,
    Policy,
    Names,
    Stat,
    Handle,
    Data,
    Target,
    Record,
    Stored,
    Refused,
}

// All names.
const ALL_NAMES: [ReplyName; 13] = [
    ReplyName::Added,
    ReplyName::Removed,
    ReplyName::Status,
    ReplyName::Done,
    ReplyName::Policy,
    ReplyName::Names,
    ReplyName::Stat,
    ReplyName::Handle,
    ReplyName::Data,
    ReplyName::Target,
    ReplyName::Record,
    ReplyName::Stored,
    ReplyName::Refused,
];

// All refusals except the one whose word is followed by a version.
const PLAIN_REFUSALS: [Refusal; 17] = [
    Refusal::NoKey,
    Refusal::Access,
    Refusal::Quota,
    Refusal::Inval,
    Refusal::Exists,
    Refusal::NotFound,
    Refusal::NotDir,
    Refusal::IsDir,
    Refusal::NotEmpty,
    Refusal::XDev,
    Refusal::NoData,
    Refusal::BadHandle,
    Refusal::NameTooLong,
    Refusal::TooBig,
    Refusal::NoSpace,
    Refusal::NoKeyClash,
    Refusal::NoMemory,
];

impl ReplyName {
    // Returns the name that the word is, if it is one.
    pub(crate) fn read(word: &[u8]) -> Option<ReplyName>
        ensures { result ≡ spec.name_of word.now }
    {
        name_among(&ALL_NAMES, word).copied()
    }

    // Returns whether the word is the name.
    fn is_written(self, word: &[u8]) -> bool
        ensures { result ≡ spec.is_written word.now self }
    {
        self.text() == word
    }

    // Returns the word that is the name.
    fn text(self) -> &'static [u8]
        ensures { result.now ≡ spec.name_text self }
    {
        match self {
            ReplyName::Added => b"added",
            ReplyName::Removed => b"removed",
            ReplyName::Status => b"status",
            ReplyName::Done => b"ok",
            ReplyName::Policy => b"policy",
            ReplyName::Names => b"names",
            ReplyName::Stat => b"stat",
            ReplyName::Handle => b"handle",
            ReplyName::Data => b"data",
            ReplyName::Target => b"target",
            ReplyName::Record => b"record",
            ReplyName::Stored => b"stored",
            ReplyName::Refused => b"refused",
        }
    }
}

// Returns the name among these that the word is, if it is one.
fn name_among<'a>(names: &'a [ReplyName], word: &[u8]) -> Option<&'a ReplyName>
    ensures { option_copied result ≡ find (spec.is_written word.now) names.now }
{
    names.iter().find(|name| name.is_written(word))
}

// Returns the refusal of a word, or `NoMemory` for a word of none.
pub(crate) fn refusal_in(word: &[u8]) -> Refusal
    ensures { result ≡ spec.refusal_in word.now }
{
    refusal_among(&PLAIN_REFUSALS, word)
        .copied()
        .unwrap_or(Refusal::NoMemory)
}

fn refusal_among<'a>(refusals: &'a [Refusal], word: &[u8]) -> Option<&'a Refusal>
    ensures { option_copied result ≡ find (spec.is_refusal_word word.now) refusals.now }
{
    refusals.iter().find(|refusal| is_word_of(**refusal, word))
}

// Returns whether the word is the refusal's.
fn is_word_of(refusal: Refusal, word: &[u8]) -> bool
    ensures { result ≡ spec.is_refusal_word word.now refusal }
{
    refusal_name(refusal) == word
}

// Returns the state of a word.
pub(crate) fn state_in(word: &[u8]) -> KeyState
    ensures { result ≡ spec.state_in word.now }
{
    if word == b"absent".as_slice() {
        return KeyState::Absent;
    }
    if word == b"present".as_slice() {
        return KeyState::Present;
    }
    KeyState::Incomplete
}

// Returns the kind of a word.
pub(crate) fn kind_in(word: &[u8]) -> NodeKind
    ensures { result ≡ spec.kind_in word.now }
{
    if word == b"dir".as_slice() {
        return NodeKind::Dir;
    }
    if word == b"file".as_slice() {
        return NodeKind::File;
    }
    NodeKind::Link
}
