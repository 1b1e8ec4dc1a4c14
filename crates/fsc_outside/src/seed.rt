//! Sources of seeds: the trait, and a source with one seed.

ghost use Rattle.std.specs.Prelude.{◌≡◌, Option, Some, None, is_some, if◌then◌else◌};
ghost use Rattle.std.specs.Result.{result_ok};
ghost use Rattle.fsc_outside.specs.Causes.{GivesSeed, HasCause, one_more};
ghost use Rattle.fsc_outside.specs.States.{SeedState};

use crate::Failed;
use std::marker::Model;

/// A source of seeds. In contracts its state is the seed that its next successful call gives, if that is
/// known, and how often it was asked and failed.
pub trait SeedSource {
    /// What is known of it now. Its counts never fall.
    ghost state: { Self → SeedState };

    /// Returns a seed. Each call counts as asked, and each call that fails as a fault.
    fn seed(&mut self) -> Result<[u8; 32], Failed>
        ensures value { GivesSeed (state self.old).next result }
        ensures asked { (state self.new).asked ≡ one_more (state self.old).asked }
        ensures cause { HasCause (state self.old).faults (state self.new).faults result };
}

/// A source that gives the same seed at each call, or fails at each call. In clauses it is a `SeedState`.
#[derive(Drop)]
pub struct FixedSeed {
    seed: Option<[u8; 32]>,
    asked: u64,
    faults: u64,
}

impl Model for FixedSeed {
    ghost use Rattle.fsc_outside.specs.States.{SeedState};

    ghost Value = { SeedState };

    ghost view = { λ s. record { next = s.seed; asked = s.asked; faults = s.faults } };
}

impl FixedSeed {
    /// Returns a source that gives this seed at each call.
    pub fn new(seed: [u8; 32]) -> FixedSeed
        ensures { result ≡ record { next = Some seed; asked = 0; faults = 0 } }
    {
        FixedSeed {
            seed: Some(seed),
            asked: 0,
            faults: 0,
        }
    }

    /// Returns a source that fails at each call.
    pub fn failing() -> FixedSeed
        ensures { result ≡ record { next = None; asked = 0; faults = 0 } }
    {
        FixedSeed {
            seed: None,
            asked: 0,
            faults: 0,
        }
    }
}

impl SeedSource for FixedSeed {
    ghost state = { λ s. s };

    fn seed(&mut self) -> Result<[u8; 32], Failed>
        ensures value { GivesSeed self.old.next result }
        ensures asked { self.new.asked ≡ one_more self.old.asked }
        ensures cause { HasCause self.old.faults self.new.faults result }
        ensures given { result_ok result ≡ self.old.next }
        ensures kept { self.new.next ≡ self.old.next }
        ensures counted { self.new.faults
            ≡ (if is_some self.old.next then self.old.faults else one_more self.old.faults) }
    {
        self.asked = self.asked.saturating_add(1);
        match self.seed {
            Some(seed) => Ok(seed),
            None => {
                self.faults = self.faults.saturating_add(1);
                Err(Failed)
            }
        }
    }
}
