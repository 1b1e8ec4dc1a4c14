//! Callbacks at the beginning and the end of each command.

/// Callbacks at the beginning and the end of each command, for example to let callers wait for one
/// another.
pub trait Gate {
    /// Is called when command `n` of the caller begins; it counts from 0 in the caller's section.
    fn before(&self, caller: u32, n: u64);

    /// Is called when command `n` of the caller has ended.
    fn after(&self, caller: u32, n: u64);
}

/// A gate that lets each caller continue at once.
#[derive(Drop)]
pub struct OpenGate;

impl Gate for OpenGate {
    fn before(&self, _caller: u32, _n: u64) {}

    fn after(&self, _caller: u32, _n: u64) {}
}
