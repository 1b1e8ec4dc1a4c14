//! The lines of a script's commands.

use crate::bad_line::first_word;
use crate::commands::verb_name_of;
use fsc_tool::MAX_INPUT_LINES;
use std::alloc::{AllocError, Global};
use text_words::next_line;

/// A command by its line, counted from 1, and its first word.
#[derive(Clone, Copy)]
pub(crate) struct CommandLine {
    pub(crate) line: usize,
    pub(crate) verb: &'static str,
}

/// The commands of each caller of a script, in order. The words after a verb may be secrets: none of them
/// is stored here.
#[derive(Drop)]
pub(crate) struct CommandLines {
    callers: Vec<Vec<CommandLine>>,
}

impl CommandLines {
    /// Returns the commands of a text that is a script.
    pub(crate) fn of_script(alloc: Global, text: &[u8]) -> Result<CommandLines, AllocError> {
        let mut found = CommandLines {
            callers: Vec::new(alloc),
        };
        let mut rest = text;
        for before in 0..MAX_INPUT_LINES {
            if rest.is_empty() {
                break;
            }
            let line = next_line(rest);
            found.add(alloc, before.saturating_add(1), first_word(line.bytes))?;
            rest = line.rest;
        }
        Ok(found)
    }

    // Adds what the line with that number and that first word is: a further caller, or a command of the
    // last one.
    fn add(&mut self, alloc: Global, line: usize, word: &[u8]) -> Result<(), AllocError> {
        if word == b"caller".as_slice() {
            self.callers.push(Vec::new(alloc))?;
            return Ok(());
        }
        if let Some(commands) = self.callers.last_mut() {
            if let Some(verb) = verb_name_of(word) {
                commands.push(CommandLine { line, verb })?;
            }
        }
        Ok(())
    }

    /// Returns the caller's command of this number, both counted from 0.
    pub(crate) fn command(&self, caller: u32, number: u64) -> Option<CommandLine> {
        let commands = self.callers.get(caller as usize)?;
        commands.get(number as usize).copied()
    }
}
