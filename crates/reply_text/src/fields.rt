//! The fields of a line, each after the words before it.

ghost use Rattle.std.specs.Prelude.{◌≡◌, ◌++◌, OnOk};
ghost use Rattle.hex.specs.Hex.{encode_lower};
ghost use Rattle.text_words.specs.Numbers.{decimal_of};
ghost use Rattle.reply_text.specs.Words.{bit, flag_text};
ghost use Rattle.reply_text.specs.Names.{bytes_text};
ghost use Rattle.reply_text.specs.Calls.{span_text};

use std::alloc::AllocError;
use text_words::{push_decimal, push_lower_hex};

// Appends words and a number to the text.
pub(crate) fn put_number(text: &mut Vec<u8>, words: &[u8], number: u64) -> Result<(), AllocError>
    ensures { OnOk result (text.new.items ≡ text.old.items ++ (words.now ++ decimal_of number)) }
{
    text.extend_from_slice(words)?;
    push_decimal(text, number)
}

// Appends words and a flag, 1 or 0, to the text.
pub(crate) fn put_flag(text: &mut Vec<u8>, words: &[u8], value: bool) -> Result<(), AllocError>
    ensures { OnOk result (text.new.items ≡ text.old.items ++ flag_text words.now value) }
{
    put_number(text, words, bit(value))
}

fn bit(value: bool) -> u64
    ensures { result ≡ bit value }
{
    u64::from(value)
}

// Appends words and the digits of bytes to the text.
pub(crate) fn put_digits(text: &mut Vec<u8>, words: &[u8], bytes: &[u8]) -> Result<(), AllocError>
    ensures { OnOk result (text.new.items ≡ text.old.items ++ (words.now ++ encode_lower bytes.now)) }
{
    text.extend_from_slice(words)?;
    push_lower_hex(text, bytes)
}

// Appends words and bytes to the text: their digits, or `-` if there is no byte.
pub(crate) fn put_bytes(text: &mut Vec<u8>, words: &[u8], bytes: &[u8]) -> Result<(), AllocError>
    ensures { OnOk result (text.new.items ≡ text.old.items ++ (words.now ++ bytes_text bytes.now)) }
{
    if bytes.is_empty() {
        text.extend_from_slice(words)?;
        return text.extend_from_slice(b"-");
    }
    put_digits(text, words, bytes)
}

// Appends words, a handle, an offset and a number of bytes to the text.
pub(crate) fn put_span(
    text: &mut Vec<u8>,
    words: &[u8],
    handle: u32,
    offset: u32,
    count: u64,
) -> Result<(), AllocError>
    ensures { OnOk result (text.new.items ≡ text.old.items ++ (words.now ++ span_text handle offset count)) }
{
    put_number(text, words, u64::from(handle))?;
    put_number(text, b" ", u64::from(offset))?;
    put_number(text, b" ", count)
}
