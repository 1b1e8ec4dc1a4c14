//! The words for numbers, paddings and units.

ghost use Rattle.std.specs.Prelude.{◌≡◌};
ghost use Rattle.script_words.specs.Numbers as numbers;

use policy_ctx::{Pad, Unit};
use text_words::decimal_value;

/// Returns the number that the word writes, if it is at most `most`.
pub fn read_number_up_to(word: &[u8], most: u32) -> Option<u32>
    ensures { result ≡ numbers.number_up_to most word.now }
{
    let number = decimal_value(word)?;
    if number > most {
        return None;
    }
    Some(number)
}

/// Returns the byte whose number the word writes, if it is at most 255.
pub fn read_byte(word: &[u8]) -> Option<u8>
    ensures { result ≡ numbers.number_up_to 255 word.now }
{
    let number = decimal_value(word)?;
    u8::try_from(number).ok()
}

/// Returns the padding whose size in bytes the word writes, if it is one: 4, 8, 16 or 32.
pub fn read_pad(word: &[u8]) -> Option<Pad>
    ensures { result ≡ numbers.pad_of word.now }
{
    Pad::of_size(decimal_value(word)?)
}

/// Returns the unit whose number the word writes, if it is one: 0 for a block, or the logarithm of its
/// bytes, 9 to 12.
pub fn read_unit(word: &[u8]) -> Option<Unit>
    ensures { result ≡ numbers.unit_of word.now }
{
    Unit::of_log2(decimal_value(word)?)
}
