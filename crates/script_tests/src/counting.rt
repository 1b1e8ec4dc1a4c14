//! A machine of the mount's calls that has no mount.

use mount_model::{Call, Refusal, Reply};
use mount_shared::MountMachine;
use turn_lock::Machine;

/// Answers each call with "done", except the call of this number, from 0, which is out of memory.
#[derive(Drop)]
pub(crate) struct Counting {
    pub(crate) calls: u64,
    pub(crate) wanting: u64,
}

impl Machine for Counting {
    type Call = Call;

    type Pending = Reply;

    type Reply = Reply;

    ghost fits = { λ _. Unit {0} };

    ghost reply = { λ lent. lent };

    ghost lawful = { λ _. Unit {0} };

    ghost reaches = { λ _ _. Unit {0} };

    fn begin(&mut self, _who: u32, _call: &Call) -> Reply {
        let number = self.calls;
        self.calls = number.wrapping_add(1);
        if number == self.wanting {
            Reply::Refused(Refusal::NoMemory)
        } else {
            Reply::Done
        }
    }

    fn finish(lent: Reply) -> Reply {
        lent
    }

    ghost reaches_lawful = { λ _ _ _. tt };
}

impl MountMachine for Counting {
    ghost takes_fitting = { λ _ _. tt };

    ghost reaches_without_memory = { λ _ _ _ _ _ _ _. tt };
}
