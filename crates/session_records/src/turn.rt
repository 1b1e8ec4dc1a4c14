//! The caller and the number of a command.

/// The caller of a command, the user for whom it calls, and the command's number in its section, from 0.
#[derive(Clone, Copy)]
pub struct Turn {
    pub caller: u32,
    pub uid: u32,
    pub number: usize,
}
