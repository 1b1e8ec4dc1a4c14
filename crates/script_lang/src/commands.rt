//! Scripts: sections of one caller each, with their commands.

use crate::verb::Verb;
use item_list::Items;

/// A script: the commands of each caller. Callers are numbered from 0, in the order of their sections;
/// there are at most eight.
pub type Script = Items<Section>;

/// One caller and its commands, in order.
pub struct Section {
    /// The user that the caller is.
    pub uid: u32,
    pub commands: CommandList,
}

// Written, not derived, so that a crate that drops a section needn't prove how that is done.
impl Drop for Section {
    fn drop(self) {
        let Section {
            uid: _,
            commands: _,
        } = self;
    }
}

/// Commands, in order.
pub type CommandList = Items<Command>;

/// A command and the number of its line, counted from 1.
#[derive(Drop)]
pub struct Command {
    pub line: u32,
    pub verb: Verb,
}
