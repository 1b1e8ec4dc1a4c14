//! What a machine is, and what a call on a shared one answers.
ghost use Rattle.std.specs.Prelude.{◌≡◌, [], ◌∷◌, ◌++◌};
ghost use Rattle.call_history.specs.Entries.{History, entry};

use thiserror::Error;

/// A machine answers calls one after another. A call is begun on the machine itself, and the pending result
/// of `begin` is finished apart from it.
pub trait Machine: Drop {
    type Call: Drop;

    type Pending;

    type Reply;

    // The calls that may be made.
    ghost fits: { Self.Call → Type 0 };
    // What `finish` gives.
    ghost reply: { Self.Pending → Self.Reply };
    // The histories that are right.
    ghost lawful: { History Self.Call Self.Reply → Type 0 };
    // This history may reach the value.
    ghost reaches: { History Self.Call Self.Reply → Self → Type 0 };

    /// Answers the call of the caller with the number `who`. The memory that the reply needs is
    /// taken here.
    fn begin(&mut self, who: u32, call: &Self::Call) -> Self::Pending
        requires { fits call.now }
        ensures { (history : History Self.Call Self.Reply) → reaches history self.old
            → reaches (history ++ entry who call.now (reply result) ∷ []) self.new };

    /// Gives the reply, when the machine may already be at work for another caller.
    fn finish(lent: Self::Pending) -> Self::Reply
        ensures { result ≡ reply lent };

    ghost reaches_lawful: { (history : History Self.Call Self.Reply) (value : Self) → reaches history value
        → lawful history };
}

/// A reply with its place in the history, which counts from 0.
#[derive(Drop)]
pub struct At<R> {
    pub place: u64,
    pub reply: R,
}

/// A pass has no calls left. It has made this many.
#[derive(Debug, Drop, Error)]
#[error("no calls are left after {made}")]
pub struct PassExhausted {
    pub made: u64,
}
