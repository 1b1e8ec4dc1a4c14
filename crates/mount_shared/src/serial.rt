//! A machine that one thread alone calls, and a caller's way to it.

ghost use Rattle.std.specs.Prelude.{◌≡◌, ◌+◌, ◌<◌, ◌≤◌, [], ◌∷◌, ◌++◌};
ghost use Rattle.call_history.specs.Entries.{entry};
ghost use Rattle.call_history.specs.declared.TheConstants.{MAX_PLACES};
ghost use Rattle.mount_model.specs.Fits.{Fits};
ghost use Rattle.mount_model.specs.History.{History};
ghost use Rattle.mount_shared.specs.SerialCalls.{SerialAfterCalls, serial_view};
ghost use Rattle.mount_shared.specs.PortLaws.{SerialAfterCalls-none, SerialAfterCalls-on, SerialAfterCalls-caller};

use crate::machine::MountMachine;
use mount_model::{Call, MountPort, Placed, Reply};
use std::marker::Model;

/// A machine with the number of places that its callers were given. Places count from 0.
#[derive(Drop)]
pub struct SerialMount<M: MountMachine> {
    pub machine: M,
    pub places: u64,
}

impl<M: MountMachine> SerialMount<M> {
    /// The machine, before any call.
    pub fn new(machine: M) -> SerialMount<M>
        ensures machine { result.machine ≡ machine }
        ensures places { result.places ≡ 0 }
    {
        SerialMount { machine, places: 0 }
    }

    /// Returns the port of a caller, with `left` calls.
    pub fn port(self, caller: u32, left: u64) -> SerialPort<M>
        requires { self.places + left ≤ MAX_PLACES }
        ensures { result ≡ serial_view self.machine self.places caller left }
    {
        SerialPort {
            mount: self,
            caller,
            left,
        }
    }
}

/// A caller's port to a machine that no other caller uses meanwhile. In clauses it is a `SerialView`.
#[derive(Drop)]
pub struct SerialPort<M: MountMachine> {
    mount: SerialMount<M>,
    caller: u32,
    left: u64,
}

impl<M: MountMachine> Model for SerialPort<M> {
    ghost use Rattle.std.specs.Prelude.{◌+◌, ◌≤◌};
    ghost use Rattle.call_history.specs.declared.TheConstants.{MAX_PLACES};
    ghost use Rattle.mount_shared.specs.SerialCalls.{SerialView, serial_view};

    ghost Value = { SerialView M };

    ghost view = { λ port. serial_view port.mount.machine port.mount.places port.caller port.left };

    ghost invariant = { λ port. port.mount.places + port.left ≤ MAX_PLACES };
}

impl<M: MountMachine> SerialPort<M> {
    /// The machine, with the places that were given so far.
    pub fn back(self) -> SerialMount<M>
        ensures machine { result.machine ≡ self.machine }
        ensures places { result.places ≡ self.places }
    {
        self.mount
    }

    // The next place, for one of the calls that are left.
    fn take_place(&mut self) -> u64
        requires { 0 < self.old.left }
        ensures place { result ≡ self.old.places }
        ensures next { self.new.places ≡ self.old.places + 1 }
        ensures counted { self.new.left + 1 ≡ self.old.left }
        ensures machine { self.new.machine ≡ self.old.machine }
        ensures caller { self.new.caller ≡ self.old.caller }
    {
        let place = self.mount.places;
        self.mount.places += 1;
        self.left -= 1;
        place
    }
}

// Returns the machine's reply to a call, with no other call in progress.
fn ask<M: MountMachine>(machine: &mut M, caller: u32, call: &Call) -> Reply
    requires { Fits call.now }
    ensures { (history : History) → M.reaches history machine.old
        → M.reaches (history ++ entry caller call.now result ∷ []) machine.new }
{
    let lent = machine.begin(caller, call);
    M::finish(lent)
}

/// Its places count on from those that were given before.
impl<M: MountMachine> MountPort for SerialPort<M> {
    ghost who = { λ port. port.caller };

    ghost calls_left = { λ port. port.left };

    ghost floor = { λ port. port.places };

    ghost after_calls = { SerialAfterCalls M.reaches };

    fn caller(&self) -> u32 {
        self.caller
    }

    fn left(&self) -> u64 {
        self.left
    }

    fn call(&mut self, call: &Call) -> Placed {
        let place = self.take_place();
        let reply = ask(&mut self.mount.machine, self.caller, call);
        Placed { place, reply }
    }

    ghost by_none = { SerialAfterCalls-none M.reaches };

    ghost by_more = { SerialAfterCalls-on M.reaches };

    ghost one_caller = { SerialAfterCalls-caller M.reaches };
}
