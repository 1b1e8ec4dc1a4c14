//! Words, paths and the names of records, with all bytes escaped that could be read as anything else.

ghost use Rattle.std.specs.Prelude.{◌≡◌, ◌++◌, OnOk};
ghost use Rattle.percent_encoding.specs.Percent.{percent_encode};
ghost use Rattle.script_words.specs.Word.{word_text};
ghost use Rattle.reply_text.specs.Names.{path_text, record_text, names_text};

use item_list::Bytes;
use mount_model::Path;
use percent_encoding::{AsciiSet, NON_ALPHANUMERIC, ascii_set, percent_encode};
use std::alloc::AllocError;

/// The bytes that are escaped in a word: all but letters, digits, `-`, `.`, `_` and `~`.
const ESCAPED_IN_WORDS: AsciiSet = ascii_set!(
    NON_ALPHANUMERIC
        .remove(b'-')
        .remove(b'.')
        .remove(b'_')
        .remove(b'~')
);

/// The bytes that are escaped in a record's name, in which a `/` is written as it is.
const ESCAPED_IN_RECORDS: AsciiSet = ascii_set!(ESCAPED_IN_WORDS.remove(b'/'));

// Appends words and a path to the text.
pub(crate) fn put_path(text: &mut Vec<u8>, words: &[u8], path: &Path) -> Result<(), AllocError>
    ensures { OnOk result (text.new.items ≡ text.old.items ++ (words.now ++ path_text path.now)) }
{
    let count = path.len();
    text.extend_from_slice(words)?;
    if count == 0 {
        return text.extend_from_slice(b"/");
    }
    let mut index = 0;
    'parts: while let Some(part) = path.part(index) {
        put_word(text, b"/", part.bytes())?;
        index += 1;
    }
    Ok(())
}

// Appends a space and a word for each name to the text.
pub(crate) fn put_names(text: &mut Vec<u8>, names: &[Bytes]) -> Result<(), AllocError>
    ensures { OnOk result (text.new.items ≡ text.old.items ++ names_text names.now) }
{
    'names: for name in names {
        put_word(text, b" ", name.as_slice())?;
    }
    Ok(())
}

// Appends words, and bytes as one word, to the text.
pub(crate) fn put_word(text: &mut Vec<u8>, words: &[u8], bytes: &[u8]) -> Result<(), AllocError>
    ensures { OnOk result (text.new.items ≡ text.old.items ++ (words.now ++ word_text bytes.now)) }
{
    text.extend_from_slice(words)?;
    put_escaped(text, bytes, ESCAPED_IN_WORDS)
}

// Appends words and the name of a record to the text.
pub(crate) fn put_record(text: &mut Vec<u8>, words: &[u8], name: &[u8]) -> Result<(), AllocError>
    ensures { OnOk result (text.new.items ≡ text.old.items ++ (words.now ++ record_text name.now)) }
{
    text.extend_from_slice(words)?;
    put_escaped(text, name, ESCAPED_IN_RECORDS)
}

// Appends bytes to the text, those of the set and those beyond ASCII escaped.
fn put_escaped(text: &mut Vec<u8>, bytes: &[u8], escaped: AsciiSet) -> Result<(), AllocError>
    ensures { OnOk result (text.new.items ≡ text.old.items ++ percent_encode escaped bytes.now) }
{
    'pieces: for piece in percent_encode(bytes, escaped) {
        text.extend_from_slice(piece.as_bytes())?;
    }
    Ok(())
}
