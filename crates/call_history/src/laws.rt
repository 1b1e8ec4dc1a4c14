//! Laws of histories, each a function without work whose contract is the law.
ghost use Rattle.std.specs.Prelude.{◌≡◌, ℕ};
ghost use Rattle.call_history.specs.Entries.{History, PlacedList, by, entries_by, history_in_order, IsComplete};

/// Entries with places that are, caller by caller, those of a history make that history when they are put
/// in order of place. They have the places of the history, each once.
pub fn callers_determine_history<C, R>()
    ensures history { (history : History C R) (placed : PlacedList C R)
        → ((caller : ℕ) → by caller placed ≡ entries_by caller history) → history_in_order placed ≡ history }
    ensures complete { (history : History C R) (placed : PlacedList C R)
        → ((caller : ℕ) → by caller placed ≡ entries_by caller history) → IsComplete placed }
{}
