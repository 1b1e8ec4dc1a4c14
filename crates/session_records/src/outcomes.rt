//! How a session command ends, by the reply to its last call.

ghost use Rattle.std.specs.Prelude.{◌≡◌};
ghost use Rattle.session_records.specs.Outcomes as spec;

use mount_model::{Refusal, Reply};
use protector_meta::WrapFault;
use reply_text::Outcome;

/// The kind of reply that is expected of a call.
#[derive(Clone, Copy)]
pub enum ExpectedReply {
    /// A key was added.
    Added,
    /// A claim to a key was removed.
    Removed,
    /// The status of a key.
    Status,
    /// Success without a result.
    Done,
    /// A record was stored.
    Stored,
}

/// Returns how a command ends whose last call has this reply: `Done` if it is the expected one, and
/// otherwise the outcome of the reply.
pub fn outcome_of(wanted: ExpectedReply, reply: &Reply) -> Outcome
    ensures { result ≡ spec.outcome_of wanted reply.now }
{
    match (wanted, reply) {
        (ExpectedReply::Added, Reply::Added(_))
        | (ExpectedReply::Removed, Reply::Removed { .. })
        | (ExpectedReply::Status, Reply::Status { .. })
        | (ExpectedReply::Done, Reply::Done)
        | (ExpectedReply::Stored, Reply::Stored(_)) => Outcome::Done,
        _ => outcome_of_other(reply),
    }
}

// How a command ends if one of its calls has another reply than the expected one.
pub(crate) fn outcome_of_other(reply: &Reply) -> Outcome
    ensures { result ≡ spec.outcome_of_other reply.now }
{
    match reply {
        Reply::Refused(refusal) => outcome_of_refusal(*refusal),
        _ => Outcome::OddReply,
    }
}

fn outcome_of_refusal(refusal: Refusal) -> Outcome
    ensures { result ≡ spec.outcome_of_refusal refusal }
{
    match refusal {
        Refusal::NoMemory => Outcome::NoMemory,
        Refusal::Changed { .. } => Outcome::Conflict,
        _ => Outcome::Refused,
    }
}

// How a command ends if a list of wraps refuses a change.
pub(crate) fn outcome_of_wraps(fault: WrapFault) -> Outcome
    ensures { result ≡ spec.outcome_of_wraps fault }
{
    match fault {
        WrapFault::Listed => Outcome::Listed,
        WrapFault::Full => Outcome::Full,
        WrapFault::NotListed => Outcome::NotListed,
        WrapFault::LastOne => Outcome::LastOne,
        WrapFault::NoMemory => Outcome::NoMemory,
    }
}
