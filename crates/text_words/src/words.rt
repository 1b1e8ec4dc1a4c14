//! Words of a line: they are separated by one space each.

ghost use Rattle.std.specs.Prelude.{◌≡◌, ◌≢◌, ◌∷◌, [], MatchOption, length, slice_get};
ghost use Rattle.std.specs.Option.{option_map};
ghost use Rattle.text_words.specs.Words as spec;
ghost use Rattle.text_words.specs.Words.{words_of};

/// How many words a line has. There is at least one, which may be empty.
pub fn word_count(line: &[u8]) -> usize
    ensures { result ≡ length (words_of line.now) }
{
    line.split(|b| *b == b' ').count()
}

/// The word at a place, counted from 0.
pub fn nth_word(line: &[u8], place: usize) -> Option<&[u8]>
    ensures { option_map (λ word. word.now) result ≡ slice_get (words_of line.now) place }
{
    line.split(|b| *b == b' ').nth(place)
}

/// The words of a line, if they are two.
pub fn two_words(line: &[u8]) -> Option<(&[u8], &[u8])>
    ensures { MatchOption result (length (words_of line.now) ≢ 2)
        (λ x. words_of line.now ≡ x.0.now ∷ x.1.now ∷ []) }
{
    if word_count(line) != 2 {
        return None;
    }
    Some((nth_word(line, 0)?, nth_word(line, 1)?))
}

/// Returns the text after a word with which it begins, or `None` if it doesn't begin so.
pub fn rest_after<'a>(text: &'a [u8], word: &[u8]) -> Option<&'a [u8]>
    ensures { option_map (λ rest. rest.now) result ≡ spec.rest_after word.now text.now }
{
    text.strip_prefix(word)
}
