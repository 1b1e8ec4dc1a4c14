//! Digits at the end of a text: they are written into it at once, with no text between.

ghost use Rattle.std.specs.Prelude.{◌≡◌, ◌*◌, ◌++◌, length, OnOk, OnErr};
ghost use Rattle.hex.specs.Hex.{encode_lower};
ghost use Rattle.text_words.specs.Numbers.{decimal_of};

use crate::numbers::decimal_digits;
use std::alloc::AllocError;

/// Appends the decimal numeral of a number to the text. If out of memory, the text is as before.
pub fn push_decimal(text: &mut Vec<u8>, number: u64) -> Result<(), AllocError>
    ensures written { OnOk result (text.new.items ≡ text.old.items ++ decimal_of number) }
    ensures kept { OnErr result (text.new.items ≡ text.old.items) }
{
    text.extend_from_slice(decimal_digits(number).as_bytes())
}

/// Appends two lower-case hexadecimal digits for each byte to the text, the high four bits first. If out of
/// memory, the text is as before.
pub fn push_lower_hex(text: &mut Vec<u8>, bytes: &[u8]) -> Result<(), AllocError>
    ensures written { OnOk result (text.new.items ≡ text.old.items ++ encode_lower bytes.now) }
    ensures kept { OnErr result (text.new.items ≡ text.old.items) }
{
    let start = text.len();
    let end = start.checked_add(2 * bytes.len()).ok_or(AllocError)?;
    text.resize(end, 0)?;
    write_lower_hex(&mut text.as_mut_slice()[start..], bytes);
    Ok(())
}

// Writes the digits over the text, whose length is exactly theirs.
fn write_lower_hex(text: &mut [u8], bytes: &[u8])
    requires { length text.old ≡ 2 * length bytes.now }
    ensures { text.new ≡ encode_lower bytes.now }
{
    if hex::encode_to_slice(bytes, text).is_err() {
        unreachable!();
    }
}
