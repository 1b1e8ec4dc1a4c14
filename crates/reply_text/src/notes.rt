//! The notes after a log: a line for each session command, with its outcome.

ghost use Rattle.std.specs.Prelude.{◌≡◌, ◌++◌, IfOk, OnOk};
ghost use Rattle.reply_text.specs.Notes.{note_text, notes_text};

use crate::fields::put_number;
use crate::outcome::Outcome;
use item_list::Bytes;
use std::alloc::{AllocError, Global};

/// The outcome of the session command in a line of the script.
#[derive(Clone, Copy, Debug, PartialEq, Eq)]
pub struct Note {
    /// The command's caller, counted from 0.
    pub caller: u32,
    /// The command's line in the script, counted from 1.
    pub line: u32,
    pub outcome: Outcome,
}

/// Returns the line of a note: `note CALLER LINE OUTCOME` and a line feed.
pub fn note_line(alloc: Global, note: &Note) -> Result<Bytes, AllocError>
    ensures { IfOk result (λ text. text ≡ note_text note.now) }
{
    let mut text = Vec::new(alloc);
    put_note(&mut text, note)?;
    Ok(Bytes::from_vec(text))
}

/// Returns the lines of notes, in their order.
pub fn write_notes(alloc: Global, notes: &[Note]) -> Result<Bytes, AllocError>
    ensures { IfOk result (λ text. text ≡ notes_text notes.now) }
{
    let mut text = Vec::new(alloc);
    'notes: for note in notes {
        put_note(&mut text, note)?;
    }
    Ok(Bytes::from_vec(text))
}

// Appends the line of a note to the text.
#[tactic(auto, unfolding(crate::specs::Notes::note_text))]
fn put_note(text: &mut Vec<u8>, note: &Note) -> Result<(), AllocError>
    ensures { OnOk result (text.new.items ≡ text.old.items ++ note_text note.now) }
{
    put_number(text, b"note ", u64::from(note.caller))?;
    put_number(text, b" ", u64::from(note.line))?;
    text.push(b' ')?;
    text.extend_from_slice(note.outcome.word().as_bytes())?;
    text.push(b'\n')?;
    Ok(())
}
