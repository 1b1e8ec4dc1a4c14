//! Why a session's work stops.

use reply_text::Outcome;
use std::alloc::AllocError;

/// Why a command's work stops.
#[derive(Clone, Copy)]
pub enum Stop {
    /// The command has ended with this outcome, before its last call.
    Ended(Outcome),
    /// Out of memory.
    NoMemory,
}

impl From<Outcome> for Stop {
    ghost use Rattle.std.specs.Prelude.{◌≡◌};
    ghost use Rattle.session_records.specs.declared.stop.Stop.TheVariants.{Ended};

    ghost from_gives = { λ outcome stop. stop ≡ Ended outcome };

    fn from(outcome: Outcome) -> Stop {
        Stop::Ended(outcome)
    }
}

impl From<AllocError> for Stop {
    ghost use Rattle.std.specs.Prelude.{◌≡◌};
    ghost use Rattle.session_records.specs.declared.stop.Stop.TheVariants.{NoMemory};

    ghost from_gives = { λ _ stop. stop ≡ NoMemory };

    fn from(_error: AllocError) -> Stop {
        Stop::NoMemory
    }
}
