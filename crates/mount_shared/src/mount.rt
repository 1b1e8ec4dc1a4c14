//! The mount, as a machine.
ghost use Rattle.std.specs.Prelude.{◌≡◌, ◌≢◌, true, false, [], ◌∷◌, ◌++◌, IfOk};
ghost use Rattle.call_history.specs.Entries.{entry};
ghost use Rattle.mount_files.specs.Pending.{reply_of};
ghost use Rattle.mount_model.specs.Answer.{answer_of};
ghost use Rattle.mount_model.specs.ClaimHistory.{is_refused};
ghost use Rattle.mount_model.specs.Fits.{Fits};
ghost use Rattle.mount_model.specs.History.{History};
ghost use Rattle.mount_model.specs.Lawful.{IsLawful};
ghost use Rattle.mount_model.specs.PlainMount.{PlainMount};
ghost use Rattle.mount_model.specs.Step.{takes_memory};
ghost use Rattle.mount_state.specs.AnswerOf.{IsExpectedRefusal};
ghost use Rattle.mount_state.specs.SameButCaches.{SameButCaches};
ghost use Rattle.mount_state.specs.Represents.{Represents};
ghost use Rattle.mount_shared.specs.DropsCaches.{DropsCaches};
ghost use Rattle.mount_shared.specs.PendingBlocks.{IsPendingOfHandle};
ghost use Rattle.mount_shared.specs.Made.{IsMade};
ghost use Rattle.mount_shared.specs.IsStateAfter.{IsStateAfter};
ghost use Rattle.mount_shared.specs.StateLaws.{IsStateAfter-out_of_memory};
ghost use Rattle.mount_shared.specs.KeyReports.{AbsentHoldsNothing, BusyIsOpen};
ghost use Rattle.mount_shared.specs.OtherReports.{ClosesOwn, ReportsRecords};

use crate::answers::answer;
use crate::machine::MountMachine;
use mount_files::Pending;
use mount_model::{Call, Refusal, Reply};
use mount_state::MountState;
use std::alloc::{AllocError, Global};
use std::marker::Brand;
use std::sync::ledger::Blank;
use turn_lock::Machine;

/// A mount: all that it stores and holds, and its allocator.
#[derive(Drop)]
pub struct Mount {
    alloc: Global,
    pub state: MountState,
}

impl Mount {
    /// Returns the empty mount, before any call: its root alone. AllocError if there is no memory for it.
    pub fn new(alloc: Global) -> Result<Mount, AllocError>
        ensures { IfOk result (λ mount. IsStateAfter [] mount.state) }
    {
        let state = MountState::new(alloc)?;
        Ok(Mount { alloc, state })
    }

    /// Answers the caller's call. Returns the reply, or for a Read the pending read, which is decrypted
    /// once the turn is over.
    ///
    /// Whatever raw keys were added:
    /// - after a refusal all is as before, except cached keys and names;
    /// - removing keys, a status, closing and dropping caches never fail for lack of memory;
    /// - DropCaches removes every cached name, and exactly those cached keys whose node has no handle;
    /// - a close is refused exactly when the caller has no such handle;
    /// - what is reported of records is what they are.
    ///
    /// If the state represents a mount whose answer is a refusal, the reply is that one, even if there is
    /// no memory.
    pub fn answer(&mut self, caller: u32, call: &Call) -> Pending
        requires { Fits call.now }
        ensures made { IsMade self.old.state (entry caller call.now (reply_of result)) self.new.state }
        ensures absent { AbsentHoldsNothing self.new.state call.now.op (reply_of result) }
        ensures busy { BusyIsOpen self.new.state call.now.op (reply_of result) }
        ensures drops { DropsCaches self.old.state self.new.state call.now.op }
        ensures pending_read { IsPendingOfHandle self.old.state caller call.now.op result }
        ensures closes { ClosesOwn self.old.state caller call.now.op (reply_of result) }
        ensures records { ReportsRecords self.old.state call.now.op (reply_of result) }
        ensures refused { is_refused (reply_of result) ≡ true → SameButCaches self.old.state self.new.state }
        ensures sure { takes_memory call.now.op ≡ false → reply_of result ≢ Reply.Refused Refusal.NoMemory }
        ensures due { (m : PlainMount) → Represents self.old.state m
            → IsExpectedRefusal (answer_of m caller call.now) (reply_of result) }
    {
        answer::<Brand>(self.alloc, &mut self.state, caller, call, Blank::new(1))
    }
}

/// Its histories are the lawful ones, and it answers as the one-thread mount does: what `answer` promises of
/// one call holds of the call that threads make.
impl Machine for Mount {
    type Call = Call;

    type Pending = Pending;

    type Reply = Reply;

    ghost fits = { Fits };

    ghost reply = { reply_of };

    ghost lawful = { IsLawful };

    ghost reaches = { λ history mount. IsStateAfter history mount.state };

    fn begin(&mut self, who: u32, call: &Call) -> Pending
        requires { Fits call.now }
        ensures reaches { (history : History) → IsStateAfter history self.old.state
            → IsStateAfter (history ++ entry who call.now (reply_of result) ∷ []) self.new.state }
        ensures made { IsMade self.old.state (entry who call.now (reply_of result)) self.new.state }
        ensures absent { AbsentHoldsNothing self.new.state call.now.op (reply_of result) }
        ensures busy { BusyIsOpen self.new.state call.now.op (reply_of result) }
        ensures drops { DropsCaches self.old.state self.new.state call.now.op }
        ensures pending_read { IsPendingOfHandle self.old.state who call.now.op result }
        ensures closes { ClosesOwn self.old.state who call.now.op (reply_of result) }
        ensures records { ReportsRecords self.old.state call.now.op (reply_of result) }
        ensures refused { is_refused (reply_of result) ≡ true → SameButCaches self.old.state self.new.state }
        ensures sure { takes_memory call.now.op ≡ false → reply_of result ≢ Reply.Refused Refusal.NoMemory }
        ensures due { (m : PlainMount) → Represents self.old.state m
            → IsExpectedRefusal (answer_of m who call.now) (reply_of result) }
    {
        self.answer(who, call)
    }

    fn finish(lent: Pending) -> Reply {
        lent.finish()
    }

    ghost reaches_lawful = { λ history mount reached_by. reached_by.lawful };
}

impl MountMachine for Mount {
    ghost takes_fitting = { λ call fits. fits };

    ghost reaches_without_memory = { λ history mount caller call fits takes reached_by.
        IsStateAfter-out_of_memory history caller call mount.state takes reached_by };
}
