//! What holds between any two steps on the table, as a function without work whose contract states it.
ghost use Rattle.std.specs.Prelude.{◌≡◌, ℕ, slice_index};
ghost use Rattle.turn_lock.specs.Home.{IsHome};
ghost use Rattle.turn_lock.specs.Standing.{Standing};
ghost use Rattle.turn_lock.specs.Turns.{TurnState, TurnInvariant};

use crate::machine::Machine;

/// Whenever the turn is free, the held value is at home and is reached by the whole counted history. That
/// history is lawful, and agrees with what every pass has seen and made.
pub fn free_value_stands_after_its_history<M: Machine>()
    ensures { (numbers allowance : ℕ) (s : TurnState M M.Call M.Reply)
        → TurnInvariant M.reaches numbers allowance s
        → slice_index s.words 0 ≡ 0 → (held : Standing M M.Call M.Reply) × IsHome M.lawful M.reaches s held }
{}
