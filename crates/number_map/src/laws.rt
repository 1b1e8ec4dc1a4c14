//! The laws of maps by number, as functions that do nothing: their contracts are the laws.
ghost use Rattle.std.specs.Prelude.{ℕ};
ghost use Rattle.number_map.specs.Laws.{LeavesHere, LeavesOthers, Counts, Commutes};
ghost use Rattle.number_map.specs.Laws.{SameMaps, KeepsAgreement};
ghost use Rattle.number_map.specs.Laws.{EntriesAgree, EntriesAgreeBy};

/// Does nothing. Its contract is the effect of an insertion, a change and a removal, on every map with
/// values of `V`.
pub fn changes_leave_the_rest<V>()
    ensures here { LeavesHere V }
    ensures others { LeavesOthers V }
    ensures lengths { Counts V }
    ensures orders { Commutes V }
    ensures same { SameMaps V }
{}

/// Does nothing. Its contract is the law that two maps, of which one has a function of the other's
/// values, agree so after the same insertion, change or removal.
pub fn changes_keep_agreement<V, W>()
    ensures { (f : V → W) → KeepsAgreement f }
{}

/// Does nothing. Its contract is a law of two maps of which one has a function of the other's values. Its
/// entries are the other's with that function of each value, by rising number; the function may depend on
/// the number too.
pub fn entries_agree_where_maps_do<V, W>()
    ensures values { (f : V → W) → EntriesAgree f }
    ensures numbered { (f : ℕ → V → W) → EntriesAgreeBy f }
{}
