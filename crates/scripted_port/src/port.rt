//! The port.

ghost use Rattle.std.specs.Prelude.{◌≡◌, ◌+◌, ◌<◌, ◌^◌, Bool, reverse};
ghost use Rattle.mount_model.specs.Fits.{Fits};
ghost use Rattle.scripted_port.specs.Scripted.{ScriptedAfterCalls, scripted_view};
ghost use Rattle.scripted_port.specs.FurtherCalls.{FurtherFits, further_after_unlisted};
ghost use Rattle.scripted_port.specs.PortLaws.{ScriptedAfterCalls-none, ScriptedAfterCalls-on, ScriptedAfterCalls-caller};
ghost use Rattle.scripted_port.specs.declared.port.Further.TheVariants.{Unasked};

use mount_model::{Call, MountPort, Placed, Refusal, Reply};
use std::alloc::Global;
use std::marker::Model;
use std::mem;

/// The first call after the listed replies: none, a call, or one that there was no memory to store.
#[derive(Drop)]
pub enum Further {
    Unasked,
    Asked(Call),
    Lost,
}

/// A caller's port that answers listed replies, one after another. After them it refuses each call as out
/// of memory, and stores the first of these calls. In clauses it is a `ScriptedView`.
#[derive(Drop)]
pub struct ScriptedPort {
    alloc: Global,
    caller: u32,
    left: u64,
    place: u64,
    // The next reply is the last.
    replies: Vec<Reply>,
    further: Further,
}

impl Model for ScriptedPort {
    ghost use Rattle.std.specs.Prelude.{◌+◌, ◌<◌, ◌^◌, reverse};
    ghost use Rattle.scripted_port.specs.Scripted.{ScriptedView, scripted_view};
    ghost use Rattle.scripted_port.specs.FurtherCalls.{FurtherFits};

    ghost Value = { ScriptedView };

    ghost view = { λ port. scripted_view port.caller port.left port.place (reverse port.replies.items)
        port.further };

    ghost invariant = { λ port. (port.place + port.left < 2 ^ 64) × FurtherFits port.further };
}

impl ScriptedPort {
    /// Returns the port of the caller, with `left` calls and these replies, the last of the list first.
    /// Places count from 0.
    pub fn new(alloc: Global, caller: u32, left: u64, replies: Vec<Reply>) -> ScriptedPort
        ensures { result ≡ scripted_view caller left 0 (reverse replies.items) Unasked }
    {
        ScriptedPort {
            alloc,
            caller,
            left,
            place: 0,
            replies,
            further: Further::Unasked,
        }
    }

    /// Returns the first call after the replies, which is one that a mount may be asked.
    pub fn into_further(self) -> Further
        ensures further { result ≡ self.further }
        ensures fits { FurtherFits result }
    {
        self.further
    }
}

/// Its calls have the listed replies, and `NoMemory` after them.
impl MountPort for ScriptedPort {
    ghost who = { λ port. port.caller };

    ghost calls_left = { λ port. port.left };

    ghost floor = { λ port. port.place };

    ghost after_calls = { ScriptedAfterCalls };

    fn caller(&self) -> u32 {
        self.caller
    }

    fn left(&self) -> u64 {
        self.left
    }

    fn call(&mut self, call: &Call) -> Placed {
        let place = self.place;
        self.place += 1;
        self.left -= 1;
        let reply = match self.replies.pop() {
            Some(reply) => reply,
            None => {
                let before = mem::replace(&mut self.further, Further::Lost);
                let behind = kept(self.alloc, before, call);
                leave(mem::replace(&mut self.further, behind));
                Reply::Refused(Refusal::NoMemory)
            }
        };
        Placed { place, reply }
    }

    ghost by_none = { ScriptedAfterCalls-none };

    ghost by_more = { ScriptedAfterCalls-on };

    ghost one_caller = { ScriptedAfterCalls-caller };
}

// Stores the call if none was asked before it.
fn kept(alloc: Global, before: Further, call: &Call) -> Further
    requires before { FurtherFits before }
    requires fits { Fits call.now }
    ensures kept { (lost : Bool) × (result ≡ further_after_unlisted before call.now lost) }
    ensures fits { FurtherFits result }
{
    match before {
        Further::Unasked => match call.copy(alloc) {
            Ok(copy) => Further::Asked(copy),
            Err(_) => Further::Lost,
        },
        other => other,
    }
}

// Drops it, in a function of its own: one with branches would drop each variant in each of them.
fn leave(_further: Further) {}
