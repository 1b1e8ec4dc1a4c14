//! The lines of records, and the values on them, read and written.

ghost use Rattle.std.specs.Prelude.{◌≡◌, ◌∷◌, [], ◌++◌, OnOk};
ghost use Rattle.byte_words.specs.Bytes.{AreBytes};
ghost use Rattle.hex.specs.Hex.{encode_lower};
ghost use Rattle.protector_meta.specs.Reading.{Gives, line_at, value_at};
ghost use Rattle.protector_meta.specs.LineValues as spec;

use crate::fault::MetaFault;
use short_bytes::Label;
use std::alloc::AllocError;
use text_words::{lower_hex_bytes, next_line, push_lower_hex, rest_after};

// The first line, if a line feed ends it, and the text after the line feed. Otherwise the line of this
// number is at fault.
pub(crate) fn ended_line(text: &[u8], number: u32) -> Result<(&[u8], &[u8]), MetaFault>
    ensures { Gives (λ x. (x.0.now, x.1.now)) result (line_at number text.now) }
{
    let line = next_line(text);
    if line.ended {
        Ok((line.bytes, line.rest))
    } else {
        Err(MetaFault::Bad { line: number })
    }
}

// The label on the line of a name.
pub(crate) fn name_line_value(line: &[u8]) -> Option<Label>
    ensures { result ≡ spec.name_line_value line.now }
{
    Label::read(rest_after(line, b"name ")?)
}

// The bytes that the digits after the word spell, if the line begins with the word.
fn digits_line_value<const N: usize>(line: &[u8], word: &[u8]) -> Option<[u8; N]>
    ensures { result ≡ spec.digits_line_value word.now N line.now }
{
    lower_hex_bytes(rest_after(line, word)?)
}

// The bytes that the digits after the word on the first line spell, and the text after the line.
// Otherwise the line of this number is at fault.
pub(crate) fn read_digits<'a, const N: usize>(
    text: &'a [u8],
    word: &[u8],
    number: u32,
) -> Result<([u8; N], &'a [u8]), MetaFault>
    ensures { Gives (λ x. (x.0, x.1.now)) result
        (value_at (spec.digits_line_value word.now N) number text.now) }
{
    let (line, rest) = ended_line(text, number)?;
    let bytes = digits_line_value(line, word).ok_or(MetaFault::Bad { line: number })?;
    Ok((bytes, rest))
}

// Appends a line to the text: a word, and the value after it.
pub(crate) fn push_line(text: &mut Vec<u8>, word: &[u8], value: &[u8]) -> Result<(), AllocError>
    ensures { OnOk result (text.new.items ≡ text.old.items ++ (word.now ++ value.now) ++ 10 ∷ []) }
{
    text.extend_from_slice(word)?;
    text.extend_from_slice(value)?;
    text.push(b'\n')?;
    Ok(())
}

// Appends a line to the text: a word, and the lower-case digits of the bytes.
pub(crate) fn push_digits_line(
    text: &mut Vec<u8>,
    word: &[u8],
    bytes: &[u8],
) -> Result<(), AllocError>
    ensures line { OnOk result (text.new.items ≡ text.old.items ++ (word.now ++ encode_lower bytes.now)
        ++ 10 ∷ []) }
    ensures in_form { OnOk result (AreBytes bytes.now) }
{
    text.extend_from_slice(word)?;
    push_lower_hex(text, bytes)?;
    text.push(b'\n')?;
    Ok(())
}
