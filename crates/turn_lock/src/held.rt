//! What is in the slot while the turn is free.
ghost use Rattle.std.specs.Prelude.{◌≡◌, [], IfOk, IfErr};
ghost use Rattle.turn_lock.specs.Standing.{standing};

use crate::machine::Machine;
use crate::recorder::Recorder;
use std::alloc::{AllocFailed, Global};
use std::marker::Model;

/// A value beside the record of its calls.
#[derive(Drop)]
pub(crate) struct Recorded<M: Machine> {
    pub(crate) value: M,
    pub(crate) recorder: Recorder<M::Call, M::Reply>,
}

/// A value with the history that reaches it. Both are in one box, so that a turn moves one pointer.
#[derive(Drop)]
pub(crate) struct Held<M: Machine> {
    pub(crate) both: Box<Recorded<M>>,
}

impl<M: Machine> Model for Held<M> {
    ghost use Rattle.turn_lock.specs.Standing.{Standing, standing};

    ghost Value = { Standing M M.Call M.Reply };

    ghost view = { λ h. standing h.both.value.value h.both.value.recorder };

    ghost invariant = { λ h. M.reaches h.both.value.recorder h.both.value.value };
}

impl<M: Machine> Held<M> {
    // Returns a value that is reached after no call. If out of memory, returns the value in the error.
    pub(crate) fn new(alloc: Global, value: M) -> Result<Held<M>, AllocFailed<M>>
        requires reaches { M.reaches [] value }
        ensures held { IfOk result (λ held. held ≡ standing value []) }
        ensures returned_turn { IfErr result (λ failed. failed.value ≡ value) }
    {
        let Ok(recorder) = Recorder::new(alloc) else {
            return Err(AllocFailed { value });
        };
        match Box::new(alloc, Recorded { value, recorder }) {
            Ok(both) => Ok(Held { both }),
            Err(AllocFailed { value: both }) => Err(AllocFailed { value: both.value }),
        }
    }

    pub(crate) fn into_value(self) -> M
        ensures value { result ≡ self.value }
        ensures reaches { M.reaches self.history result }
    {
        Box::into_inner(self.both).value
    }
}
