//! The two mounts.

use mount_shared::{MountMachine, SerialMount};

/// The machines of mount 0 and of mount 1, each of a type of its own. In a run on two mounts callers with
/// an even number work on mount 0, and the others on mount 1; a run on one mount has mount 0 alone.
#[derive(Drop)]
pub struct Mounts<M: MountMachine, N: MountMachine> {
    pub even: M,
    pub odd: N,
}

/// Both, and how many places each has given.
#[derive(Drop)]
pub(crate) struct SerialMounts<M: MountMachine, N: MountMachine> {
    pub(crate) even: SerialMount<M>,
    pub(crate) odd: SerialMount<N>,
}
