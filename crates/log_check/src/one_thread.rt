//! The machine that answers the calls of a log that is checked.

ghost use Rattle.std.specs.Prelude.{ℕ, IsTrue, [], ◌∷◌, ◌++◌};
ghost use Rattle.call_history.specs.Entries.{entry};
ghost use Rattle.mount_model.specs.Fits.{Fits};
ghost use Rattle.mount_model.specs.History.{History};
ghost use Rattle.mount_model.specs.Lawful.{IsLawful};
ghost use Rattle.mount_model.specs.Step.{takes_memory};
ghost use Rattle.mount_model.specs.declared.call.Call.{Call};
ghost use Rattle.mount_model.specs.declared.reply.Refusal.TheVariants.{NoMemory};
ghost use Rattle.mount_model.specs.declared.reply.Reply.TheVariants.{Refused};

use mount_model::{Call, Reply};

/// A mount that one thread alone calls, for all callers.
pub trait OneThread {
    // Whether the history may reach it.
    ghost reached_by: { History → Self → Type 0 };

    /// Answers the caller's call. Each history that may reach the mount before may, with this entry after
    /// it, reach it now.
    fn answer(&mut self, caller: u32, call: &Call) -> Reply
        requires fits { Fits call.now }
        ensures reached_by { (history : History) → reached_by history self.old
            → reached_by (history ++ entry caller call.now result ∷ []) self.new };

    // Each history that may reach it is lawful.
    ghost reached_lawful: { (history : History) (mount : Self) → reached_by history mount
        → IsLawful history };

    // A call that takes memory and was out of memory leaves it as it is.
    ghost reaches_without_memory: { (history : History) (mount : Self) (caller : ℕ) (call : Call)
        → Fits call → IsTrue (takes_memory call.op) → reached_by history mount
        → reached_by (history ++ entry caller call (Refused NoMemory) ∷ []) mount };
}
