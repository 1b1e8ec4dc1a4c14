//! Why the words on the line of a node or an entry of an image are at fault.

use mount_limits::MAX_FILE_BYTES;
use name_crypt::{MAX_NAME_BYTES, MIN_STORED_BYTES};
use text_words::{decimal_value, is_lower_hex, nth_word, word_count};

const CONTEXT_BYTES: usize = 40;

const SPACE: &str = "the line has a space too many";

const TOO_FEW: &str = "the line has too few words";

const TOO_MANY: &str = "the line has too many words";

const NUMBER: &str = "the node's number is not a number from 0 to 4294967295 without leading zeros";

// The words of a node's line that follow its number.
#[derive(Clone, Copy)]
struct Body<'a> {
    kind: &'a [u8],
    has_policy: bool,
    last: Option<&'a [u8]>,
}

/// Returns why the words on a line that begins with `node` are no node's.
pub(crate) fn cause_of_node_words(line: &[u8]) -> Option<&'static str> {
    if let Some(cause) = cause_of_count(line, 4, 5) {
        return Some(cause);
    }
    if decimal_value(nth_word(line, 1)?).is_none() {
        return Some(NUMBER);
    }
    let context = nth_word(line, 3)?;
    let has_policy = context != b"-".as_slice();
    if has_policy && !is_lower_hex(context, CONTEXT_BYTES) {
        return Some("the context is neither - nor 80 lower-case hexadecimal digits");
    }
    let body = Body {
        kind: nth_word(line, 2)?,
        has_policy,
        last: nth_word(line, 4),
    };
    match cause_in_body(body) {
        None if has_policy => Some("the context's 40 bytes are no context of version 2"),
        cause => cause,
    }
}

/// Returns why the words on a line that begins with `entry` are no entry's.
pub(crate) fn cause_of_entry_words(line: &[u8]) -> Option<&'static str> {
    if let Some(cause) = cause_of_count(line, 3, 3) {
        return Some(cause);
    }
    if decimal_value(nth_word(line, 1)?).is_none() {
        return Some(NUMBER);
    }
    let name = nth_word(line, 2)?;
    if !is_digits(name) {
        return Some("the name is not an even number of lower-case hexadecimal digits");
    }
    if is_long(name) {
        return Some("the name has more than 255 bytes");
    }
    None
}

// Returns what is at fault with the number of words, if it isn't from `least` to `most`, or a word is empty.
fn cause_of_count(line: &[u8], least: usize, most: usize) -> Option<&'static str> {
    if line.split(|byte| *byte == b' ').any(|word| word.is_empty()) {
        return Some(SPACE);
    }
    let count = word_count(line);
    if count < least {
        Some(TOO_FEW)
    } else if count > most {
        Some(TOO_MANY)
    } else {
        None
    }
}

// Returns what is at fault with a node's kind, or with the word after its context.
fn cause_in_body(body: Body<'_>) -> Option<&'static str> {
    let is_dir = body.kind == b"dir".as_slice();
    let is_file = body.kind == b"file".as_slice();
    if !is_dir && !is_file && body.kind != b"link".as_slice() {
        return Some("the node is not a dir, a file or a link");
    }
    match body.last {
        None if is_dir => None,
        None => Some(TOO_FEW),
        Some(_) if is_dir => Some(TOO_MANY),
        Some(size) if is_file => cause_of_size(size),
        Some(target) => cause_of_target(target, body.has_policy),
    }
}

// Returns why a word is not the size of a file.
fn cause_of_size(word: &[u8]) -> Option<&'static str> {
    match decimal_value(word) {
        None => Some("the size is not a number without leading zeros"),
        Some(size) if size as usize > MAX_FILE_BYTES => Some("the size is greater than 1048576"),
        Some(_) => None,
    }
}

// Returns why a word is not the target of a symlink.
fn cause_of_target(word: &[u8], has_policy: bool) -> Option<&'static str> {
    if !is_digits(word) {
        return Some("the target is not an even number of lower-case hexadecimal digits");
    }
    if is_long(word) {
        return Some("the target has more than 255 bytes");
    }
    if has_policy && word.len() / 2 < MIN_STORED_BYTES {
        return Some("the target has fewer than 16 bytes, and the symlink has a policy");
    }
    None
}

// Returns whether a word is lower-case hexadecimal digits, two for each byte.
fn is_digits(word: &[u8]) -> bool {
    is_lower_hex(word, word.len() / 2)
}

// Returns whether digits are more than those of the longest name.
fn is_long(digits: &[u8]) -> bool {
    digits.len() / 2 > MAX_NAME_BYTES
}
