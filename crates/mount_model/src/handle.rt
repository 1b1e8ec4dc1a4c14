//! Handles of open nodes.

/// A handle: its caller, its number among that caller's, and the node that it is on.
#[derive(Clone, Copy, Debug, PartialEq, Eq)]
pub struct Handle {
    pub caller: u32,
    pub number: u32,
    pub node: u32,
}
