//! The right to call a shared machine under some caller numbers.
ghost use Rattle.std.specs.Prelude.{◌≡◌, ◌+◌, ◌<◌, ◌≤◌, length};
ghost use Rattle.call_history.specs.declared.TheConstants.{MAX_PLACES};
ghost use Rattle.call_history.specs.Entries.{by};

use crate::held::Held;
use crate::machine::Machine;
use crate::view::View;
use atomic_table::Seat;
use std::marker::Model;

/// Caller `who`, which owns the numbers from `who` to below `high` and has `left` calls left. In contracts
/// it has what the pass has seen of the history, its own entries (`mine`) and those of ended passes that it
/// took in (`past`).
#[derive(Drop)]
pub struct Pass<M: Machine> {
    pub(crate) seat: Seat<Option<Held<M>>, View<M::Call, M::Reply>>,
    pub(crate) who: u32,
    pub(crate) high: u32,
    pub(crate) left: u64,
    pub(crate) made: u64,
}

impl<M: Machine> Model for Pass<M> {
    ghost use Rattle.turn_lock.specs.Passes.{PassView};
    ghost use Rattle.turn_lock.specs.Seats.{pass_view, IsPass};

    ghost Value = { PassView M.Call M.Reply };

    ghost view = { λ p. pass_view p.seat.table_id p.seat.me.0 };

    ghost invariant = { λ p. IsPass p.seat.me p.who p.high p.left p.made };
}

impl<M: Machine> Pass<M> {
    /// The caller's number.
    pub fn who(&self) -> u32
        ensures value { result ≡ self.now.who }
        ensures own { by self.now.who self.now.mine ≡ self.now.mine }
    {
        self.who
    }

    /// The number above the last that the pass owns.
    pub fn high(&self) -> u32
        ensures value { result ≡ self.now.high }
        ensures some_number { self.now.who < self.now.high }
    {
        self.high
    }

    /// How many calls are left. Together with those made they are at most 2^40.
    pub fn left(&self) -> u64
        ensures value { result ≡ self.now.left }
        ensures small { self.now.left + length self.now.mine ≤ MAX_PLACES }
    {
        self.left
    }
}
