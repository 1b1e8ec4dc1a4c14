//! The words of a line, each read as what the line of an entry has at its position.

ghost use Rattle.std.specs.Prelude.{◌≡◌, map, IfOk};
ghost use Rattle.std.specs.List.{slice_split};
ghost use Rattle.percent_encoding.specs.Percent.{percent_decode};
ghost use Rattle.script_words.specs.Path.{is_slash};
ghost use Rattle.entry_reader.specs.Fields as spec;
ghost use Rattle.entry_reader.specs.Forms.{Makes, word};

use item_list::Bytes;
use mount_model::{KeyId, Part, Path};
use percent_encoding::percent_decode;
use script_lang::Words;
use script_words::read_hex_or_none;
use std::alloc::{AllocError, Global};
use text_words::{decimal_value, decimal_value_u64, hex_bytes};

// Takes the next word, or an empty one if none is left.
pub(crate) fn take_word<'a>(words: &mut Words<'a>) -> &'a [u8]
    ensures { word (λ text. text) words.old ≡ (result.now, words.new) }
{
    match words.next() {
        Some(word) => word,
        None => &[],
    }
}

// Reads a number below 2^32.
pub(crate) fn number(words: &mut Words<'_>) -> u32
    ensures { word spec.number_in words.old ≡ (result, words.new) }
{
    number_in(take_word(words))
}

// Reads a place.
pub(crate) fn place(words: &mut Words<'_>) -> u64
    ensures { word spec.place_in words.old ≡ (result, words.new) }
{
    decimal_value_u64(take_word(words)).unwrap_or(0)
}

// Reads a flag.
pub(crate) fn flag(words: &mut Words<'_>) -> bool
    ensures { word spec.flag_in words.old ≡ (result, words.new) }
{
    flag_in(take_word(words))
}

// Reads how many users hold a key.
pub(crate) fn users(words: &mut Words<'_>) -> u32
    ensures { word spec.users_in words.old ≡ (result, words.new) }
{
    users_in(take_word(words))
}

// Reads an identifier.
pub(crate) fn id(words: &mut Words<'_>) -> KeyId
    ensures { word spec.id_in words.old ≡ (result, words.new) }
{
    KeyId(hex_bytes(take_word(words)).unwrap_or([0; 16]))
}

// Reads a policy.
pub(crate) fn policy(words: &mut Words<'_>) -> [u8; 24]
    ensures { word spec.policy_in words.old ≡ (result, words.new) }
{
    hex_bytes(take_word(words)).unwrap_or([0; 24])
}

// Returns as many zeros as the number in the word, or none if it is greater than `most`.
pub(crate) fn zeros(alloc: Global, words: &mut Words<'_>, most: usize) -> Result<Bytes, AllocError>
    ensures { Makes result (word (spec.zeros_in most) words.old) words.new }
{
    zeros_in(alloc, take_word(words), most)
}

// Reads bytes in digits.
pub(crate) fn bytes(alloc: Global, words: &mut Words<'_>) -> Result<Bytes, AllocError>
    ensures { Makes result (word spec.bytes_in words.old) words.new }
{
    bytes_in(alloc, take_word(words))
}

// Reads bytes as a word.
pub(crate) fn unescape_word(alloc: Global, words: &mut Words<'_>) -> Result<Bytes, AllocError>
    ensures { Makes result (word percent_decode words.old) words.new }
{
    unescape(alloc, take_word(words))
}

// Reads a path.
pub(crate) fn path(alloc: Global, words: &mut Words<'_>) -> Result<Path, AllocError>
    ensures { Makes result (word spec.path_in words.old) words.new }
{
    path_in(alloc, take_word(words))
}

fn number_in(word: &[u8]) -> u32
    ensures { result ≡ spec.number_in word.now }
{
    decimal_value(word).unwrap_or(0)
}

fn flag_in(word: &[u8]) -> bool
    ensures { result ≡ spec.flag_in word.now }
{
    match word.last() {
        Some(digit) => *digit == b'1',
        None => false,
    }
}

fn users_in(word: &[u8]) -> u32
    ensures { result ≡ spec.users_in word.now }
{
    if word.starts_with(b"users=") {
        return number_in(&word[6..]);
    }
    0
}

fn zeros_in(alloc: Global, word: &[u8], most: usize) -> Result<Bytes, AllocError>
    ensures { IfOk result (λ bytes. bytes ≡ spec.zeros_in most word.now) }
{
    let said = number_in(word) as usize;
    let count = if said <= most { said } else { 0 };
    let zeros = vec![in alloc; 0u8; count]?;
    Ok(Bytes::from_vec(zeros))
}

fn bytes_in(alloc: Global, word: &[u8]) -> Result<Bytes, AllocError>
    ensures { IfOk result (λ bytes. bytes ≡ spec.bytes_in word.now) }
{
    match read_hex_or_none(alloc, word, word.len() / 2)? {
        Some(bytes) => Ok(bytes),
        None => Ok(Bytes::new(alloc)),
    }
}

pub(crate) fn unescape(alloc: Global, word: &[u8]) -> Result<Bytes, AllocError>
    ensures { IfOk result (λ bytes. bytes ≡ percent_decode word.now) }
{
    let mut bytes = Vec::new(alloc);
    percent_decode(word).append_to(&mut bytes)?;
    Ok(Bytes::from_vec(bytes))
}

fn path_in(alloc: Global, word: &[u8]) -> Result<Path, AllocError>
    ensures { IfOk result (λ path. path ≡ spec.path_in word.now) }
{
    if word.len() <= 1 {
        return Ok(Path::root(alloc));
    }
    parts_in(alloc, &word[1..])
}

// Returns the path whose parts are separated by slashes.
fn parts_in(alloc: Global, text: &[u8]) -> Result<Path, AllocError>
    ensures { IfOk result (λ path. path ≡ map percent_decode (slice_split is_slash text.now)) }
{
    let mut path = Path::root(alloc);
    'pieces: for piece in text.split(|b| *b == b'/') {
        let part = unescape(alloc, piece)?;
        path.push(Part::new(part))?;
    }
    Ok(path)
}
