//! The mount that answers the calls of a log that is checked.

ghost use Rattle.mount_shared.specs.IsStateAfter.{IsStateAfter};
ghost use Rattle.mount_shared.specs.StateLaws.{IsStateAfter-out_of_memory};

use log_check::OneThread;
use mount_model::{Call, Reply};
use mount_shared::Mount;
use turn_lock::Machine;

// A mount without other callers.
#[derive(Drop)]
pub(crate) struct OneMount {
    pub(crate) mount: Mount,
}

impl OneThread for OneMount {
    ghost reached_by = { λ history one. IsStateAfter history one.mount.state };

    fn answer(&mut self, caller: u32, call: &Call) -> Reply {
        let lent = self.mount.begin(caller, call);
        Mount::finish(lent)
    }

    ghost reached_lawful = { λ history one reached_by. reached_by.lawful };

    ghost reaches_without_memory = { λ history one caller call fits takes reached_by.
        IsStateAfter-out_of_memory history caller call one.mount.state takes reached_by };
}
