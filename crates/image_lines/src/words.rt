//! The words on the lines of nodes and entries.

ghost use Rattle.std.specs.Prelude.{◌≡◌, Option, None, Some, MatchOption, is_some};
ghost use Rattle.std.specs.Option.{option_map};
ghost use Rattle.text_words.specs.Words.{words_of};
ghost use Rattle.image_lines.specs.Lines as spec;
ghost use Rattle.image_lines.specs.Words as told;

use crate::node_line::{EntryLine, NodeKind, NodeLine, StoredBytes};
use crate::rules::is_target;
use mount_limits::MAX_FILE_BYTES;
use name_crypt::MAX_NAME_BYTES;
use policy_ctx::{CONTEXT_LEN, decode_context};
use text_words::{
    decimal_value, lower_hex_bytes, lower_hex_bytes_into, nth_word, two_words, word_count,
};

// The words after `node`: a number, a kind and a context, and for a file or a link one more.
#[derive(Clone, Copy)]
struct NodeWords<'a> {
    number: &'a [u8],
    kind: &'a [u8],
    context: &'a [u8],
    last: Option<&'a [u8]>,
}

// Returns the node that the words describe.
pub(crate) fn node_of_words(text: &[u8]) -> Option<NodeLine>
    ensures { result ≡ spec.node_of_words (words_of text.now) }
{
    let words = node_words(text)?;
    let number = decimal_value(words.number)?;
    let context = context_of_word(words.context)?;
    let kind = kind_of_word(words.kind, context.is_some(), words.last)?;
    Some(NodeLine {
        number,
        context,
        kind,
    })
}

// Returns the entry that the words describe.
pub(crate) fn entry_of_words(text: &[u8]) -> Option<EntryLine>
    ensures { option_map (λ entry. (entry.name, entry.child)) result
        ≡ spec.entry_of_words (words_of text.now) }
{
    let (child, name) = two_words(text)?;
    let child = decimal_value(child)?;
    let name = stored_name_of_word(name)?;
    Some(EntryLine { name, child })
}

// Returns the words, if they are three or four.
fn node_words(text: &[u8]) -> Option<NodeWords<'_>>
    ensures { MatchOption result (spec.node_of_words (words_of text.now) ≡ None)
        (λ w. spec.node_of_words (words_of text.now)
        ≡ spec.node_of w.number.now w.kind.now w.context.now (option_map (λ last. last.now) w.last)) }
{
    let count = word_count(text);
    if count != 3 && count != 4 {
        return None;
    }
    Some(NodeWords {
        number: nth_word(text, 0)?,
        kind: nth_word(text, 1)?,
        context: nth_word(text, 2)?,
        last: nth_word(text, 3),
    })
}

// Reads at most 255 bytes from lower-case digits.
fn stored_name_of_word(word: &[u8]) -> Option<StoredBytes>
    ensures { result ≡ told.stored_name_of_word word.now }
{
    let len = word.len() / 2;
    if len > MAX_NAME_BYTES {
        return None;
    }
    let mut bytes = [0; MAX_NAME_BYTES];
    if !lower_hex_bytes_into(word, &mut bytes[..len]) {
        return None;
    }
    Some(StoredBytes::of(&bytes[..len]))
}

// Reads a context from its 80 digits, or no context from `-`.
fn context_of_word(word: &[u8]) -> Option<Option<[u8; CONTEXT_LEN]>>
    ensures { result ≡ told.context_of_word word.now }
{
    if word == b"-".as_slice() {
        return Some(None);
    }
    let context = lower_hex_bytes(word)?;
    if decode_context(&context).is_err() {
        return None;
    }
    Some(Some(context))
}

// Returns the kind of node that a word names, with the word after the context, if there is one.
fn kind_of_word(word: &[u8], under_policy: bool, last: Option<&[u8]>) -> Option<NodeKind>
    ensures { result ≡ told.kind_of_word word.now under_policy (option_map (λ last. last.now) last.entry) }
{
    match last {
        None if word == b"dir".as_slice() => Some(NodeKind::Dir),
        Some(last) if word == b"file".as_slice() => file_of_word(last),
        Some(last) if word == b"link".as_slice() => link_of_word(under_policy, last),
        _ => None,
    }
}

fn file_of_word(word: &[u8]) -> Option<NodeKind>
    ensures { result ≡ told.file_of_word word.now }
{
    let size = decimal_value(word)?;
    if size as usize > MAX_FILE_BYTES {
        return None;
    }
    Some(NodeKind::File { size })
}

fn link_of_word(under_policy: bool, word: &[u8]) -> Option<NodeKind>
    ensures { result ≡ told.link_of_word under_policy word.now }
{
    let target = stored_name_of_word(word)?;
    if !is_target(under_policy, target.bytes()) {
        return None;
    }
    Some(NodeKind::Link(target))
}
