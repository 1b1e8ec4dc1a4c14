//! Words: characters from `!` to `~`, in which `%` and two hexadecimal digits are one byte.

ghost use Rattle.std.specs.Prelude.{◌≡◌, ◌≤◌, true, Some, IfOk, length, string_bytes, OnOk, OnErr, ◌++◌};
ghost use Rattle.std.specs.List.{list_all};
ghost use Rattle.std.specs.Char.{is_ascii_graphic};
ghost use Rattle.script_words.specs.Word as spec;
ghost use Rattle.script_words.specs.Word.{word_bytes, target_bytes, is_word_text, word_text};
ghost use Rattle.script_words.specs.declared.limits.TheConstants.{MAX_WORD_BYTES};
ghost use Rattle.percent_encoding.specs.Percent.{percent_decode};

use crate::limits::MAX_WORD_BYTES;
use item_list::Bytes;
use percent_encoding::{AsciiSet, NON_ALPHANUMERIC, ascii_set, percent_decode, percent_encode};
use std::alloc::{AllocError, Global};

/// The bytes that are escaped: all but letters, digits, `-`, `.`, `_` and `~`.
const ESCAPED: AsciiSet = ascii_set!(
    NON_ALPHANUMERIC
        .remove(b'-')
        .remove(b'.')
        .remove(b'_')
        .remove(b'~')
);

/// Reads a word: 1 to 1,000 bytes. Returns `None` exactly when the text is outside the grammar: a
/// character outside `!` to `~`, a `%` without two hexadecimal digits after it, no byte or more than
/// 1,000. `AllocError` is possible for any text.
#[tactic(auto, unfolding(crate::specs::Word::word_bytes))]
pub fn read_word(alloc: Global, text: &[u8]) -> Result<Option<Bytes>, AllocError>
    ensures { IfOk result (λ word. word ≡ word_bytes text.now) }
{
    if !is_word_text(text) {
        return Ok(None);
    }
    let mut bytes = Vec::new(alloc);
    percent_decode(text).append_to(&mut bytes)?;
    if bytes.is_empty() || bytes.len() > MAX_WORD_BYTES {
        return Ok(None);
    }
    Ok(Some(Bytes::from_vec(bytes)))
}

/// Reads a symlink's target: a word of 1 to 1,000 bytes without NUL. Returns `None` exactly for other
/// texts. `AllocError` is possible for any text.
#[tactic(auto, unfolding(crate::specs::Word::target_bytes))]
pub fn read_target(alloc: Global, text: &[u8]) -> Result<Option<Bytes>, AllocError>
    ensures { IfOk result (λ target. target ≡ target_bytes text.now) }
{
    match read_word(alloc, text)? {
        Some(bytes) => {
            if !may_be_target(bytes.as_slice()) {
                return Ok(None);
            }
            Ok(Some(bytes))
        }
        None => Ok(None),
    }
}

// Whether no byte is NUL.
fn may_be_target(bytes: &[u8]) -> bool
    ensures { result ≡ spec.may_be_target bytes.now }
{
    !bytes.contains(&0)
}

/// Writes bytes as a word, in one to three characters each.
pub fn write_word(alloc: Global, bytes: &[u8]) -> Result<String, AllocError>
    ensures value { IfOk result (λ text. string_bytes text ≡ word_text bytes.now) }
    ensures reads_back { 1 ≤ length bytes.now → length bytes.now ≤ MAX_WORD_BYTES
        → IfOk result (λ text. word_bytes (string_bytes text) ≡ Some bytes.now) }
{
    let mut text = String::new(alloc);
    append_word(&mut text, bytes)?;
    Ok(text)
}

// Appends bytes to a text, as a word. After an error the text is as before.
pub(crate) fn append_word(text: &mut String, bytes: &[u8]) -> Result<(), AllocError>
    ensures appended { OnOk result (string_bytes text.new ≡ string_bytes text.old ++ word_text bytes.now) }
    ensures kept { OnErr result (string_bytes text.new ≡ string_bytes text.old) }
{
    percent_encode(bytes, ESCAPED).append_to(text)
}

// Whether the characters are from `!` to `~`, and two digits follow each `%`.
fn is_word_text(text: &[u8]) -> bool
    ensures { result ≡ is_word_text text.now }
{
    is_graphic(text) && has_whole_escapes(text)
}

fn is_graphic(text: &[u8]) -> bool
    ensures { result ≡ list_all is_ascii_graphic text.now }
{
    text.iter().all(|c| c.is_ascii_graphic())
}

// Whether two hexadecimal digits follow each `%`.
fn has_whole_escapes(text: &[u8]) -> bool
    ensures { result ≡ spec.has_whole_escapes text.now }
{
    let mut rest = text;
    'characters: while let [first, more @ ..] = rest {
        if *first == b'%' && !begins_with_two_digits(more) {
            return false;
        }
        rest = more;
    }
    true
}

fn begins_with_two_digits(text: &[u8]) -> bool
    ensures { result ≡ spec.begins_with_two_digits text.now }
{
    match text {
        [high, low, ..] => high.is_ascii_hexdigit() && low.is_ascii_hexdigit(),
        _ => false,
    }
}
