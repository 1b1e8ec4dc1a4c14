//! A caller's way to a machine that threads share.

ghost use Rattle.std.specs.Prelude.{◌≡◌, length};
ghost use Rattle.mount_shared.specs.SharedCalls.{PassAfterCalls};
ghost use Rattle.mount_shared.specs.PassLaws.{PassAfterCalls-none, PassAfterCalls-on, PassAfterCalls-caller};

use crate::machine::MountMachine;
use mount_model::{Call, MountPort, Placed, Reply};
use std::marker::Model;
use std::sync::Wait;
use turn_lock::{At, Pass, PassExhausted, Shared};

/// The port of a pass: each call waits for the turn of the shared machine. In clauses it is its pass.
#[derive(Drop)]
pub struct SharedPort<'a, M: MountMachine, W: Wait> {
    rt: &'a W,
    shared: &'a Shared<M>,
    pass: Pass<M>,
}

impl<'a, M: MountMachine, W: Wait> Model for SharedPort<'a, M, W> {
    ghost use Rattle.std.specs.Prelude.{◌≡◌};
    ghost use Rattle.turn_lock.specs.Passes.{PassView};
    ghost use Rattle.mount_model.specs.declared.call.Call.{Call};
    ghost use Rattle.mount_model.specs.declared.reply.Reply.{Reply};

    ghost Value = { PassView Call Reply };

    ghost view = { λ port. port.pass };

    ghost invariant = { λ port. port.pass.table ≡ port.shared.now.table };
}

impl<'a, M: MountMachine, W: Wait> SharedPort<'a, M, W> {
    /// The port of a pass that belongs to the shared machine.
    pub fn new(rt: &'a W, shared: &'a Shared<M>, pass: Pass<M>) -> SharedPort<'a, M, W>
        requires { pass.table ≡ shared.now.table }
        ensures { result ≡ pass }
    {
        SharedPort { rt, shared, pass }
    }

    /// The pass, with what was called since.
    pub fn back(self) -> Pass<M>
        ensures { result ≡ self.entry }
    {
        self.pass
    }
}

// Returns the reply to a call of the mount, with its place in the history.
fn placed(at: At<Reply>) -> Placed
    ensures place { result.place ≡ at.place }
    ensures reply { result.reply ≡ at.reply }
{
    Placed {
        place: at.place,
        reply: at.reply,
    }
}

/// A pass comes by its own entries, and by more of the history that it has seen.
impl<'a, M: MountMachine, W: Wait> MountPort for SharedPort<'a, M, W> {
    ghost who = { λ pass. pass.who };

    ghost calls_left = { λ pass. pass.left };

    ghost floor = { λ pass. length pass.seen };

    ghost after_calls = { PassAfterCalls M.lawful };

    fn caller(&self) -> u32 {
        self.pass.who()
    }

    fn left(&self) -> u64 {
        self.pass.left()
    }

    fn call(&mut self, call: &Call) -> Placed {
        match self.shared.call(self.rt, &mut self.pass, call) {
            Ok(at) => placed(at),
            Err(PassExhausted { made: _ }) => unreachable!(),
        }
    }

    ghost by_none = { PassAfterCalls-none M.lawful };

    ghost by_more = { PassAfterCalls-on M.lawful };

    ghost one_caller = { PassAfterCalls-caller M.lawful };
}
