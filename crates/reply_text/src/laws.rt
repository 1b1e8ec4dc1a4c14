//! Laws of all lines: they determine each caller and its reply. Each law is an empty function whose
//! contract is the law.

ghost use Rattle.reply_text.specs.LogLaws.{BeginningsDetermineTheirEntries, DifferentRepliesHaveDifferentLines};
ghost use Rattle.reply_text.specs.LogLaws.{LinesDetermineTheirEntries, LogsDetermineTheirEntries, NoteLinesDetermineTheirNotes};

/// Different replies of one call have different lines.
pub fn different_replies_have_different_lines()
    ensures { DifferentRepliesHaveDifferentLines }
{}

/// A line determines place, caller, user, the text of the call, and the reply.
pub fn lines_determine_their_entries()
    ensures { LinesDetermineTheirEntries }
{}

/// A log determines caller, user, text of the call and reply of each of its entries, in order of place.
pub fn logs_determine_their_entries()
    ensures { LogsDetermineTheirEntries }
{}

/// So does a beginning of a text: if it is the log of two histories of equally many entries, they have
/// the same values, and the same rest follows.
pub fn beginnings_determine_their_entries()
    ensures { BeginningsDetermineTheirEntries }
{}

/// A note's line determines the note.
pub fn note_lines_determine_their_notes()
    ensures { NoteLinesDetermineTheirNotes }
{}
