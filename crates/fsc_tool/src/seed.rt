//! The seed of a run.

ghost use Rattle.std.specs.Prelude.{◌≡◌};
ghost use Rattle.fsc_tool.specs.Seed.{TakesSeed, wiped_seeding};

use crate::form::Seeding;
use byte_words::wipe;
use fsc_outside::{Failed, SeedSource};

// Returns the seed of a run. Asks the seed source once, and only if the arguments give no seed.
pub(crate) fn take_seed<E: SeedSource>(seeding: &Seeding, seeds: &mut E) -> Result<[u8; 32], Failed>
    ensures { TakesSeed seeding.now (E.state seeds.old) (E.state seeds.new) result }
{
    match seeding {
        Seeding::Given(own) => {
            let mut seed = [0; 32];
            seed.copy_from_slice(own);
            Ok(seed)
        }
        Seeding::Asked => seeds.seed(),
    }
}

// Wipes the seed that the arguments gave, if any.
pub(crate) fn wipe_seeding(seeding: &mut Seeding)
    ensures { seeding.new ≡ wiped_seeding seeding.old }
{
    if let Seeding::Given(seed) = seeding {
        wipe(seed);
    }
}
