//! A law of causes, as a function that does nothing: its contract is the law.
ghost use Rattle.std.specs.Prelude.{ℕ, ◌-◌, ◌^◌, ◌≤◌};
ghost use Rattle.fsc_outside.specs.Causes.{Rose};

/// Does nothing. Its contract is the law that a count which rose and is the same as before is the maximum
/// of its type. Below the maximum, each fault changes the count.
pub fn a_count_rises_in_place_only_at_its_end()
    ensures { (count : ℕ) → Rose count count → 2 ^ 64 - 1 ≤ count }
{}
