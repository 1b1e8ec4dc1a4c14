//! What is printed for the arguments after `inspect` that are no form: the first at fault, and the remedy.

use crate::advice::{WordFault, at, is_path};
use crate::bad_line::is_hexadecimal;

const RAW: &str = "raw:";

const MIN_KEY_DIGITS: usize = 64;

const MAX_KEY_DIGITS: usize = 128;

// Returns the first argument at fault after `inspect`.
pub(crate) fn fault_of_inspect(words: &[String]) -> Option<WordFault> {
    match words {
        [] => None,
        [key, ..] if !is_raw_key(key.as_str()) => at(1, remedy_of_raw_key(key.as_str())),
        [_] => None,
        _ => at(2, "nothing comes after the key"),
    }
}

fn is_raw_key(word: &str) -> bool {
    let Some(digits) = word.as_bytes().get(RAW.len()..) else {
        return false;
    };
    word.starts_with(RAW)
        && digits.len() >= MIN_KEY_DIGITS
        && digits.len() <= MAX_KEY_DIGITS
        && digits.len() % 2 == 0
        && is_hexadecimal(digits)
}

// Returns the remedy for an argument in the place of a raw key.
fn remedy_of_raw_key(word: &str) -> &'static str {
    if word.starts_with("id:") {
        return "an identifier opens nothing: give the key itself by raw:HEX";
    }
    if word.starts_with(RAW) {
        return "a raw key is raw: and 64 to 128 hexadecimal digits, an even number";
    }
    if is_path(word) {
        return "the image comes from standard input: fsc inspect < FILE";
    }
    "inspect takes a raw key, raw:HEX, or nothing"
}
