//! Outcomes of session commands.

ghost use Rattle.std.specs.Prelude.{◌≡◌};
ghost use Rattle.reply_text.specs.Notes.{outcome_word};

/// The outcome of a session command.
#[derive(Clone, Copy, Debug, PartialEq, Eq)]
pub enum Outcome {
    /// All its calls were made, and none was refused.
    Done,
    /// A call was refused, for a reason that has no other outcome.
    Refused,
    /// A record has another version than the one that was loaded.
    Conflict,
    /// A record can't be read, is another's, or holds another key than it names.
    BadRecord,
    /// A passphrase was given for a raw protector, or a raw secret for one with a passphrase.
    WrongKind,
    /// The secret isn't the protector's, or the protector's key isn't that of the wrap.
    WrongKey,
    /// The policy has no wrap by this protector.
    NotListed,
    /// The policy has a wrap by this protector already.
    Listed,
    /// The policy has as many wraps as it may.
    Full,
    /// The wrap is the policy's only one.
    LastOne,
    /// The command was out of memory.
    NoMemory,
    /// A call returned a reply that no such call has.
    OddReply,
    /// The record has the newest version of its format.
    Current,
}

impl Outcome {
    /// Returns the word of this outcome in a note.
    pub fn word(self) -> &'static str
        ensures { result.now ≡ outcome_word self }
    {
        match self {
            Outcome::Done => "ok",
            Outcome::Refused => "refused",
            Outcome::Conflict => "conflict",
            Outcome::BadRecord => "bad-record",
            Outcome::WrongKind => "wrong-kind",
            Outcome::WrongKey => "wrong-key",
            Outcome::NotListed => "not-listed",
            Outcome::Listed => "listed",
            Outcome::Full => "full",
            Outcome::LastOne => "last-one",
            Outcome::NoMemory => "no-memory",
            Outcome::OddReply => "odd-reply",
            Outcome::Current => "current",
        }
    }
}
