//! How a text ends that was read as far as a log goes.

ghost use Rattle.std.specs.Prelude.{◌≡◌, ◌↔◌, None, All, IfOk, IsTrue};
ghost use Rattle.std.specs.List.{flat_map};
ghost use Rattle.log_check.specs.Endings.{IsEnded};
ghost use Rattle.reply_text.specs.Notes.{notes_text};

use item_list::Bytes;
use next_calls::Caller;
use reply_text::write_notes;
use std::alloc::{AllocError, Global};

// Whether all callers have made their calls, and the text is the lines of their notes.
pub(crate) fn is_ended<'a>(
    alloc: Global,
    callers: &[Caller<'a>],
    text: &[u8],
) -> Result<bool, AllocError>
    ensures { IfOk result (λ ended. IsTrue ended ↔ IsEnded callers.now text.now) }
{
    if !await_nothing(callers) {
        return Ok(false);
    }
    let notes = notes_of(alloc, callers)?;
    Ok(text == notes.as_slice())
}

// Whether no caller waits for a reply.
fn await_nothing<'a>(callers: &[Caller<'a>]) -> bool
    ensures { IsTrue result ↔ All (λ caller. caller.waiting ≡ None) callers.now }
{
    'callers: for number in 0..callers.len() {
        if callers[number].waiting().is_some() {
            return false;
        }
    }
    true
}

// The lines of their notes, caller after caller.
pub(crate) fn notes_of<'a>(alloc: Global, callers: &[Caller<'a>]) -> Result<Bytes, AllocError>
    ensures { IfOk result (λ text. text ≡ notes_text (flat_map (λ caller. caller.notes) callers.now)) }
{
    let mut text = Vec::new(alloc);
    'callers: for number in 0..callers.len() {
        let lines = write_notes(alloc, callers[number].notes())?;
        text.extend_from_slice(lines.as_slice())?;
    }
    Ok(Bytes::from_vec(text))
}
