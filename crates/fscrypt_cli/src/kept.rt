//! What standard input gave is stored for messages on a line at fault, until the first command begins.

use crate::lines::{CommandLine, CommandLines};
use byte_words::wipe;
use fsc_outside::{Failed, Source};
use fsc_tool::MAX_INPUT_BYTES;
use std::alloc::Global;
use std::sync::{Mutex, OnceLock};

/// The text that was read, and the lines of its commands. The source that stores it and the gate that drops
/// it share it. No call waits for its lock, since the source is done when the gate begins.
#[derive(Drop)]
pub(crate) struct RecordedText {
    // `None` if the whole text couldn't be stored, and after `forget`.
    text: Mutex<Option<Vec<u8>>>,
    // What was found at the end of the text, if the lines are asked for.
    lines: OnceLock<CommandLines>,
    finds_lines: bool,
}

impl RecordedText {
    /// Returns an empty text. Takes no memory.
    pub(crate) fn new(alloc: Global, finds_lines: bool) -> RecordedText {
        RecordedText {
            text: Mutex::new(Some(Vec::new(alloc))),
            lines: OnceLock::new(),
            finds_lines,
        }
    }

    // Appends the bytes to the text. If some bytes can't be stored, the whole text is wiped and dropped.
    fn keep(&self, bytes: &[u8]) {
        let is_kept = match self.text.try_lock() {
            Some(mut kept) => match kept.as_mut() {
                Some(text) => put_behind(text, bytes),
                None => false,
            },
            None => false,
        };
        if !is_kept {
            self.forget();
        }
    }

    // Finds the lines of the commands, once the text is whole.
    fn find_lines(&self, alloc: Global) {
        if !self.finds_lines {
            return;
        }
        if let Some(kept) = self.text.try_lock() {
            if let Some(text) = kept.as_ref() {
                if let Ok(lines) = CommandLines::of_script(alloc, text.as_slice()) {
                    let _ = self.lines.try_set(lines);
                }
            }
        }
    }

    /// Wipes the text, and drops it.
    // Not inlined, so that the machine code has a function of this name, in which tools look for the wipe.
    #[inline(never)]
    pub(crate) fn forget(&self) {
        if let Some(mut text) = self.take() {
            wipe(text.as_mut_slice());
        }
    }

    /// Returns the line of the caller's command of this number, both counted from 0, or `None` if no lines
    /// were found.
    pub(crate) fn line_of(&self, caller: u32, number: u64) -> Option<CommandLine> {
        self.lines.get()?.command(caller, number)
    }

    /// Takes the text, if it is still stored.
    pub(crate) fn take(&self) -> Option<Vec<u8>> {
        self.text.try_lock()?.take()
    }
}

// Appends bytes to a text, which has capacity for the longest one, so that the text is never moved when it
// grows: a move would leave its secrets in freed memory. Returns false if the text is longer than a script,
// or there was no memory.
fn put_behind(text: &mut Vec<u8>, bytes: &[u8]) -> bool {
    let room = (MAX_INPUT_BYTES + 1).saturating_sub(text.len());
    bytes.len() <= room && text.reserve_exact(room).is_ok() && text.extend_from_slice(bytes).is_ok()
}

/// A source whose bytes are stored.
#[derive(Drop)]
pub(crate) struct RecordedSource<'a, S: Source + Drop> {
    source: S,
    alloc: Global,
    kept: &'a RecordedText,
}

impl<'a, S: Source + Drop> RecordedSource<'a, S> {
    pub(crate) fn new(alloc: Global, source: S, kept: &'a RecordedText) -> RecordedSource<'a, S> {
        RecordedSource {
            source,
            alloc,
            kept,
        }
    }
}

impl<'a, S: Source + Drop> Source for RecordedSource<'a, S> {
    ghost state = { λ kept. S.state kept.source };

    ghost after_calls = { λ old calls new. S.after_calls old.source calls new.source };

    ghost by_none = { λ kept. S.by_none kept.source };

    ghost by_more = { λ a b c calls more. S.by_more a.source b.source c.source calls more };

    fn read(&mut self, piece: &mut [u8]) -> Result<usize, Failed> {
        match self.source.read(piece) {
            Ok(count) => {
                match piece.get(..count) {
                    Some(bytes) if count > 0 => self.kept.keep(bytes),
                    _ => self.kept.find_lines(self.alloc),
                }
                Ok(count)
            }
            Err(_) => Err(Failed),
        }
    }
}
