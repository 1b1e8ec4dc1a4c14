//! A mount with one reply replaced, for tests.
ghost use Rattle.mount_model.specs.Fits.{Fits};

use mount_model::{Call, Reply};
use mount_shared::{Mount, MountMachine};
use turn_lock::Machine;

/// A mount, except that the call of number `at`, from 0, isn't made on it and has this reply.
#[derive(Drop)]
pub(crate) struct Replaced {
    pub(crate) mount: Mount,
    pub(crate) calls: u64,
    pub(crate) at: u64,
    pub(crate) reply: Option<Reply>,
}

impl Machine for Replaced {
    type Call = Call;

    type Pending = Reply;

    type Reply = Reply;

    ghost fits = { Fits };

    ghost reply = { λ lent. lent };

    ghost lawful = { λ _. Unit {0} };

    ghost reaches = { λ _ _. Unit {0} };

    fn begin(&mut self, who: u32, call: &Call) -> Reply
        requires { Fits call.now }
    {
        let number = self.calls;
        self.calls = number.wrapping_add(1);
        if number != self.at {
            return self.mount.answer(who, call).finish();
        }
        match self.reply.take() {
            Some(reply) => reply,
            None => Reply::Done,
        }
    }

    fn finish(lent: Reply) -> Reply {
        lent
    }

    ghost reaches_lawful = { λ _ _ _. tt };
}

impl MountMachine for Replaced {
    ghost takes_fitting = { λ _ fits. fits };

    ghost reaches_without_memory = { λ _ _ _ _ _ _ _. tt };
}
