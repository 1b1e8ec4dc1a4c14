//! Paths: `/`, or a `/` before each of 1 to 32 parts. A part is a word, or a star.

ghost use Rattle.std.specs.Prelude.{◌≡◌, Some, List, IfOk, OnOk, ◌++◌, string_bytes};
ghost use Rattle.std.specs.List.{slice_split};
ghost use Rattle.script_words.specs.Path.{IsPath, part_of, path_of, is_slash, few_parts, star_number};
ghost use Rattle.script_words.specs.PathText.{path_text, part_text};

use crate::limits::MAX_PARTS;
use crate::word::{append_word, read_word};
use item_list::{Bytes, Items};
use std::alloc::{AllocError, Global};
use std::marker::Model;
use text_words::{decimal_value, may_be_part};

/// A part of a path.
#[derive(Drop)]
pub enum ScriptPart {
    /// The name itself.
    Given(Bytes),
    /// The name of this number, from 0, in the caller's last listing. If no such name can be a part, the
    /// part is its own text, `*` and the number.
    Star(u32),
}

/// A path of at most 32 parts; the root has none. A given part has 1 to 1,000 bytes, without `/` and NUL,
/// and is neither `.` nor `..`. In clauses a path is the list of its parts.
pub struct ScriptPath {
    parts: Items<ScriptPart>,
}

// Written, not derived, so that a crate that drops a path needn't prove how that is done.
impl Drop for ScriptPath {
    fn drop(self) {
        let ScriptPath { parts: _ } = self;
    }
}

impl Model for ScriptPath {
    ghost use Rattle.std.specs.Prelude.{List};
    ghost use Rattle.script_words.specs.declared.path.ScriptPart.{ScriptPart};
    ghost use Rattle.script_words.specs.Path.{IsPath};

    ghost Value = { List ScriptPart };

    ghost view = { λ path. path.parts };

    ghost invariant = { λ path. IsPath path.parts };
}

impl ScriptPath {
    /// Returns the parts, the one after the first `/` first.
    pub fn parts(&self) -> &[ScriptPart]
        ensures value { result.now ≡ self.now }
        ensures path { IsPath result.now }
    {
        self.parts.as_slice()
    }
}

/// Reads a path. Returns `None` exactly when the text is outside the grammar: no `/` at the start, more
/// than 32 parts, or a piece after a `/` that is no part. `AllocError` is possible for any text.
pub fn read_path(alloc: Global, text: &[u8]) -> Result<Option<ScriptPath>, AllocError>
    ensures { IfOk result (λ path. path ≡ path_of text.now) }
{
    if text.is_empty() || text[0] != b'/' {
        return Ok(None);
    }
    if text.len() == 1 {
        let parts = Items::new(alloc);
        return Ok(Some(ScriptPath { parts }));
    }
    match read_parts(alloc, &text[1..])? {
        Some(parts) => Ok(Some(ScriptPath { parts })),
        None => Ok(None),
    }
}

// The parts between the slashes.
fn read_parts(alloc: Global, text: &[u8]) -> Result<Option<Items<ScriptPart>>, AllocError>
    ensures { IfOk result (λ parts. parts ≡ few_parts (slice_split is_slash text.now)) }
{
    let mut parts = Items::new(alloc);
    'pieces: for piece in text.split(|b| *b == b'/') {
        if parts.len() >= MAX_PARTS {
            return Ok(None);
        }
        match read_part(alloc, piece)? {
            Some(part) => parts.push(part)?,
            None => return Ok(None),
        }
    }
    Ok(Some(parts))
}

/// Reads a part. `*` and a number, unescaped, are a star; every other text is a word, without `/` and NUL
/// and neither `.` nor `..`. Returns `None` exactly when the text is no part. `AllocError` is possible
/// for any text.
#[tactic(auto, unfolding(crate::specs::Path::part_of))]
pub fn read_part(alloc: Global, text: &[u8]) -> Result<Option<ScriptPart>, AllocError>
    ensures { IfOk result (λ part. part ≡ part_of text.now) }
{
    if let Some(number) = read_star(text) {
        return Ok(Some(ScriptPart::Star(number)));
    }
    match read_word(alloc, text)? {
        Some(bytes) => {
            if !may_be_part(bytes.as_slice()) {
                return Ok(None);
            }
            Ok(Some(ScriptPart::Given(bytes)))
        }
        None => Ok(None),
    }
}

// The number of a star.
fn read_star(text: &[u8]) -> Option<u32>
    ensures { result ≡ star_number text.now }
{
    match text {
        [b'*', number @ ..] => decimal_value(number),
        _ => None,
    }
}

/// Writes a path: `/`, or `/` and the part for each part. A star is written as `*` and its number,
/// a given part as a word, so that no given part reads back as a star.
pub fn write_path(alloc: Global, path: &ScriptPath) -> Result<String, AllocError>
    ensures value { IfOk result (λ text. string_bytes text ≡ path_text path.now) }
    ensures reads_back { IfOk result (λ text. path_of (string_bytes text) ≡ Some path.now) }
{
    path_text(alloc, path.parts())
}

// The text of a path of these parts.
fn path_text(alloc: Global, parts: &[ScriptPart]) -> Result<String, AllocError>
    ensures { IfOk result (λ text. string_bytes text ≡ path_text parts.now) }
{
    if parts.is_empty() {
        return String::from_str(alloc, "/");
    }
    let mut text = String::new(alloc);
    'parts: for part in parts {
        text.push('/')?;
        append_part(&mut text, part)?;
    }
    Ok(text)
}

// Appends a part to a text.
fn append_part(text: &mut String, part: &ScriptPart) -> Result<(), AllocError>
    ensures { OnOk result (string_bytes text.new ≡ string_bytes text.old ++ part_text part.now) }
{
    match part {
        ScriptPart::Given(bytes) => append_word(text, bytes.as_slice()),
        ScriptPart::Star(number) => write!(text, "*{number}"),
    }
}
