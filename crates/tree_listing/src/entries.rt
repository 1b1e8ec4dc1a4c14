//! The lines of a directory's entries.

ghost use Rattle.std.specs.Prelude.{◌≡◌, ◌<◌, ◌≤◌, ℕ, List, [], ◌∷◌, Some, length, IfSome, MatchOption};
ghost use Rattle.std.specs.List.{before_first};
ghost use Rattle.text_words.specs.Lines.{is_line_feed, pieces_of};
ghost use Rattle.image_lines.specs.Lines.{entry_of_line};
ghost use Rattle.image_lines.specs.Nodes.{IsRestOf};
ghost use Rattle.image_lines.specs.WordForms.{entries_at};

use image_lines::{EntryLine, read_entry_line};
use text_words::next_line;

/// The entry on the first line of a text.
#[derive(Clone, Copy)]
pub(crate) struct FirstEntry<'a> {
    /// The entry of the line.
    pub entry: EntryLine,
    /// The text after the line.
    pub rest: &'a [u8],
}

// Returns the entry of the first line, if that is an entry's.
pub(crate) fn first_entry(lines: &[u8]) -> Option<FirstEntry<'_>>
    ensures entries { MatchOption result (entries_at (pieces_of lines.now) ≡ [])
        (λ first. entries_at (pieces_of lines.now)
        ≡ (first.entry.name, first.entry.child) ∷ entries_at (pieces_of first.rest.now)) }
    ensures line { IfSome result (λ first. entry_of_line (before_first is_line_feed lines.now)
        ≡ Some (first.entry.name, first.entry.child)) }
    ensures shorter { IfSome result (λ first. length first.rest.now < length lines.now) }
    ensures rest { IfSome result (λ first. (text : List ℕ) → IsRestOf text lines.now
        → length lines.now ≤ length text → IsRestOf text first.rest.now) }
{
    let line = next_line(lines);
    match read_entry_line(line.bytes) {
        Some(entry) => Some(FirstEntry {
            entry,
            rest: line.rest,
        }),
        None => None,
    }
}

// Returns how many entry lines come first.
pub(crate) fn entry_count(lines: &[u8]) -> usize
    ensures { result ≡ length (entries_at (pieces_of lines.now)) }
{
    let mut rest = lines;
    let mut count = 0;
    'entries: while let Some(first) = first_entry(rest) {
        rest = first.rest;
        count += 1;
    }
    count
}
