//! Ports: one caller's access to a mount.

ghost use Rattle.std.specs.Prelude.{◌≡◌, ◌+◌, ◌<◌, ◌≤◌, ℕ, [], ◌∷◌, ◌++◌};
ghost use Rattle.call_history.specs.Entries.{entry};
ghost use Rattle.mount_model.specs.Fits.{Fits};
ghost use Rattle.mount_model.specs.Port.{PlacedCalls};

use super::{Call, Placed};

/// One caller's access to a mount, with the number of calls left. A port need not retain its calls.
pub trait MountPort {
    // The caller of these calls.
    ghost who: { Self → ℕ };

    // How many calls are left.
    ghost calls_left: { Self → ℕ };

    // No call from now on has a place below this one.
    ghost floor: { Self → ℕ };

    // These calls turn the first port into the second.
    ghost after_calls: { Self → PlacedCalls → Self → Type 0 };

    /// Returns the caller's number.
    fn caller(&self) -> u32
        ensures { result ≡ who self.now };

    /// Returns the number of calls left.
    fn left(&self) -> u64
        ensures { result ≡ calls_left self.now };

    /// Makes a call of the caller, and returns its reply with its place in the history. The call is
    /// borrowed, so its owner can wipe what it carries.
    fn call(&mut self, call: &Call) -> Placed
        requires left { 0 < calls_left self.old }
        requires fits { Fits call.now }
        ensures after_calls { after_calls self.old
            ((result.place, entry (who self.old) call.now result.reply) ∷ []) self.new }
        ensures caller { who self.new ≡ who self.old }
        ensures one_fewer { calls_left self.new + 1 ≡ calls_left self.old }
        ensures from { floor self.old ≤ result.place }
        ensures below { result.place < floor self.new };

    ghost by_none: { (port : Self) → after_calls port [] port };

    ghost by_more: { (first second third : Self) (e f : PlacedCalls)
        → after_calls first e second → after_calls second f third → after_calls first (e ++ f) third };

    ghost one_caller: { (first second : Self) (e : PlacedCalls)
        → after_calls first e second → who second ≡ who first };
}
