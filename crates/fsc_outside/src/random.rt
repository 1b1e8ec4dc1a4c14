//! The runtime's random source as a source of seeds: the edge of what is proved.

ghost use Rattle.std.specs.Prelude.{◌≡◌, None};
ghost use Rattle.fsc_outside.specs.States.{SeedState};

use crate::{Failed, SeedSource};
use std::marker::Model;
use std::random::RandomSource;

/// A random source, such as the runtime's, as a source of seeds. Its next seed is not known before the
/// call. An error of the random source is a fault. In clauses it is a `SeedState`.
#[derive(Drop)]
pub struct RuntimeSeed<'a, R> {
    random: &'a R,
    asked: u64,
    faults: u64,
}

impl<'a, R> Model for RuntimeSeed<'a, R> {
    ghost use Rattle.std.specs.Prelude.{None};
    ghost use Rattle.fsc_outside.specs.States.{SeedState};

    ghost Value = { SeedState };

    ghost view = { λ source. record { next = None; asked = source.asked; faults = source.faults } };
}

impl<'a, R: RandomSource> RuntimeSeed<'a, R> {
    /// Returns the random source as a source of seeds that was not asked so far.
    pub fn new(random: &'a R) -> Self
        ensures { result ≡ record { next = None; asked = 0; faults = 0 } }
    {
        RuntimeSeed {
            random,
            asked: 0,
            faults: 0,
        }
    }
}

impl<'a, R: RandomSource> SeedSource for RuntimeSeed<'a, R> {
    ghost state = { λ source. source };

    fn seed(&mut self) -> Result<[u8; 32], Failed> {
        self.asked = self.asked.saturating_add(1);
        let mut seed = [0; 32];
        match self.random.fill_bytes(&mut seed) {
            Ok(()) => Ok(seed),
            Err(_) => {
                self.faults = self.faults.saturating_add(1);
                Err(Failed)
            }
        }
    }
}
