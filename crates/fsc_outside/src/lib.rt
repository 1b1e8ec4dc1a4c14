//! Sources of bytes and seeds, and sinks of bytes. Each trait has a count of faults, so that a caller
//! that reports a fault can be checked for its cause. Fakes in memory fail at the calls that are listed.
#![tactic(auto)]

ghost use Rattle.std.specs.Prelude.{◌↔◌, IsTrue, Contains};

use thiserror::Error;

mod gate;
mod input;
mod laws;
mod random;
mod seed;
mod sink;
mod source;
mod standard;
mod whole;

pub use gate::{Gate, OpenGate};
pub use input::{InputFault, InputLimits, read_all};
use item_list::Items;
pub use laws::a_count_rises_in_place_only_at_its_end;
pub use random::RuntimeSeed;
pub use seed::{FixedSeed, SeedSource};
pub use sink::{MemSink, Sink, SteadySink};
pub use source::{MemSource, Source, SteadySource};
pub use standard::{StdSink, StdSource};
pub use whole::write_all;

/// Numbers of calls, counted from 0.
pub type CallList = Items<u32>;

/// A call outside failed, and no bytes were transferred.
#[derive(Debug, Drop, Error)]
#[error("a call outside failed")]
pub struct Failed;

// Whether the call is one of the list.
fn is_listed(calls: &CallList, call: u64) -> bool
    ensures { IsTrue result ↔ Contains calls.now call }
{
    calls.iter().any(|listed| u64::from(*listed) == call)
}
