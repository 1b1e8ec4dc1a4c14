//! A port that shows each call and its reply to be in range.

ghost use Rattle.std.specs.Prelude.{◌≡◌};
ghost use Rattle.script_runs.specs.InRange.{RangedAfterCalls};
ghost use Rattle.script_runs.specs.RangeLaws.{RangedAfterCalls-none, RangedAfterCalls-on, RangedAfterCalls-caller};

use mount_model::{Call, MountPort, Placed};
use reply_text::{call_in_range, reply_in_range};
use std::marker::Model;

/// Another port, whose calls and replies are in range since they are values of the program. In clauses it is
/// that port.
#[derive(Drop)]
pub struct RangedPort<P: MountPort> {
    port: P,
}

impl<P: MountPort> Model for RangedPort<P> {
    ghost Value = { P };

    ghost view = { λ ranged. ranged.port };
}

impl<P: MountPort> RangedPort<P> {
    /// Returns a port over this one.
    pub fn over(port: P) -> RangedPort<P>
        ensures { result ≡ port }
    {
        RangedPort { port }
    }

    /// Returns the port, with the calls made since.
    pub fn back(self) -> P
        ensures { result ≡ self }
    {
        self.port
    }
}

/// It has the calls of the other port, and each is in range.
impl<P: MountPort> MountPort for RangedPort<P> {
    ghost who = { λ port. P.who port };

    ghost calls_left = { λ port. P.calls_left port };

    ghost floor = { λ port. P.floor port };

    ghost after_calls = { RangedAfterCalls P.after_calls };

    fn caller(&self) -> u32 {
        self.port.caller()
    }

    fn left(&self) -> u64 {
        self.port.left()
    }

    fn call(&mut self, call: &Call) -> Placed {
        let _caller = self.port.caller();
        let placed = self.port.call(call);
        call_in_range(call);
        reply_in_range(&placed.reply);
        placed
    }

    ghost by_none = { RangedAfterCalls-none P.after_calls P.by_none };

    ghost by_more = { RangedAfterCalls-on P.after_calls P.by_more };

    ghost one_caller = { RangedAfterCalls-caller P.who P.after_calls P.one_caller };
}
