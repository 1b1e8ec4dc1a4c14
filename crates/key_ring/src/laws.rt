//! What a ring and mode keys are made of. None of these functions does anything: its contract is the law.

ghost use Rattle.key_ring.specs.Whole.{RingsAreTheirParts, ModesAreTheirParts};

/// A ring is its claims and its secrets, which are all visible, and nothing else: it holds no further copy
/// of a secret.
pub fn a_ring_is_what_is_seen_of_it()
    ensures { RingsAreTheirParts }
{}

/// Mode keys are those of the two kinds, which are all seen, and nothing else.
pub fn mode_keys_are_what_is_seen_of_them()
    ensures { ModesAreTheirParts }
{}
