//! The words of a line, taken one by one.

ghost use Rattle.std.specs.Prelude.{◌≡◌, drop, slice_get, IsTrue, ◌↔◌, []};
ghost use Rattle.std.specs.Option.{option_map};
ghost use Rattle.text_words.specs.Words.{words_of};

use script_words::place_of;
use std::alloc::AllocError;
use std::marker::Model;

// Why the words of a command weren't read.
#[derive(Clone, Copy, Debug, PartialEq, Eq)]
pub(crate) enum Unread {
    // They are outside the grammar.
    OutsideGrammar,
    // The reader is out of memory.
    NoMemory,
}

impl From<AllocError> for Unread {
    ghost use Rattle.std.specs.Prelude.{◌≡◌};
    ghost use Rattle.script_lang.specs.declared.words.Unread.TheVariants.{NoMemory};

    ghost from_gives = { λ _ unread. unread ≡ NoMemory };

    fn from(_error: AllocError) -> Unread {
        Unread::NoMemory
    }
}

/// The words of a line that are left. In clauses they are their list.
#[derive(Drop)]
pub struct Words<'a> {
    rest: Option<&'a [u8]>,
}

impl<'a> Model for Words<'a> {
    ghost use Rattle.std.specs.Prelude.{ℕ, List, []};
    ghost use Rattle.std.specs.Option.{option_map_or};
    ghost use Rattle.text_words.specs.Words.{words_of};

    ghost Value = { List (List ℕ) };

    ghost view = { λ words. option_map_or (λ text. words_of text.now) words.rest [] };
}

impl<'a> Words<'a> {
    /// Returns all words of the line.
    pub fn new(line: &'a [u8]) -> Words<'a>
        ensures { result ≡ words_of line.now }
    {
        Words { rest: Some(line) }
    }

    /// Removes the first of the words that are left and returns it; `None` if there is none.
    pub fn next(&mut self) -> Option<&'a [u8]>
        ensures word { option_map (λ word. word.now) result ≡ slice_get self.old 0 }
        ensures left { self.new ≡ drop 1 self.old }
    {
        let text = self.rest?;
        let end = place_of(text, b' ');
        if end < text.len() {
            self.rest = Some(&text[end + 1..]);
            Some(&text[..end])
        } else {
            self.rest = None;
            Some(text)
        }
    }

    /// Returns whether no word is left.
    pub fn is_empty(&self) -> bool
        ensures { IsTrue result ↔ (self.now ≡ []) }
    {
        match self.rest {
            None => true,
            Some(_) => false,
        }
    }
}
