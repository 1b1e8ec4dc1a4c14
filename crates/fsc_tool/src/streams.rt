//! What a run reaches outside.

use crate::difference::Difference;

/// The source of bytes, the sink, the source of seeds, and what a check finds of a refused log.
#[derive(Drop)]
pub struct Streams<S, K, E> {
    pub source: S,
    pub sink: K,
    pub seeds: E,
    /// `None` before a run. `check` stores here how a refused log differs from a run, if there is memory
    /// for it.
    pub difference: Option<Difference>,
}
