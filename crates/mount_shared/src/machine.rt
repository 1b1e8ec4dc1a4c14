//! What every machine has that represents a mount.
ghost use Rattle.std.specs.Prelude.{ℕ, IsTrue, [], ◌∷◌, ◌++◌};
ghost use Rattle.call_history.specs.Entries.{entry};
ghost use Rattle.mount_model.specs.Fits.{Fits};
ghost use Rattle.mount_model.specs.History.{History};
ghost use Rattle.mount_model.specs.Step.{takes_memory};
ghost use Rattle.mount_model.specs.declared.call.Call.{Call};
ghost use Rattle.mount_model.specs.declared.reply.Reply.TheVariants.{Refused};
ghost use Rattle.mount_model.specs.declared.reply.Refusal.TheVariants.{NoMemory};

use mount_model::{Call, Reply};
use turn_lock::Machine;

/// A machine of the mount's calls and replies, which may be asked each call that a mount may be asked.
pub trait MountMachine: Machine<Call = Call, Reply = Reply> {
    ghost takes_fitting: { (call : Call) → Fits call → Self.fits call };

    // A history that reaches it still reaches it with a call after it that takes memory and was out of
    // memory: such a call leaves it as it is.
    ghost reaches_without_memory: { (history : History) (machine : Self) (caller : ℕ) (call : Call)
        → Fits call → IsTrue (takes_memory call.op) → Self.reaches history machine
        → Self.reaches (history ++ entry caller call (Refused NoMemory) ∷ []) machine };
}
