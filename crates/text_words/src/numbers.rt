//! Decimal numbers: one digit or more, and no zero in front but in the number zero.

ghost use Rattle.std.specs.Prelude.{◌≡◌, ℕ, ◌^◌, ◌<◌, ◌≤◌, true, List, drop, IfSome, MatchOption};
ghost use Rattle.std.specs.Char.{is_ascii_digit};
ghost use Rattle.std.specs.List.{list_all};
ghost use Rattle.std.specs.Str.Parse.{digits_value};
ghost use Rattle.text_words.specs.Numbers as spec;
ghost use Rattle.text_words.specs.Numbers.{decimal_of, number_below};

use std::marker::Model;

/// The maximal number of digits of a number below 2^64.
const MAX_DIGITS: usize = 20;

/// The decimal numeral of a number: 1 to 20 digits.
#[derive(Drop)]
pub struct DecimalText {
    digits: [u8; MAX_DIGITS],
    start: usize,
}

impl Model for DecimalText {
    ghost Value = { List ℕ };

    ghost view = { λ text. drop text.start text.digits };

    ghost invariant = { λ text. text.start ≤ 20 };
}

impl DecimalText {
    /// The digits, the first of the number first.
    pub fn as_bytes(&self) -> &[u8]
        ensures { result.now ≡ self.now }
    {
        &self.digits[self.start..]
    }
}

/// Writes a number.
pub fn decimal_digits(number: u64) -> DecimalText
    ensures { result ≡ decimal_of number }
{
    let mut digits = [0; MAX_DIGITS];
    let start = itoa::write_digits(number, &mut digits, MAX_DIGITS);
    DecimalText { digits, start }
}

/// Reads the number that a decimal numeral writes, if it is below 2^32.
pub fn decimal_value(text: &[u8]) -> Option<u32>
    ensures value { result ≡ number_below (2 ^ 32) text.now }
    ensures numeral { IfSome result (λ n. text.now ≡ decimal_of n) }
    ensures every { (n : ℕ) → n < 2 ^ 32 → text.now ≡ decimal_of n → result ≡ Some n }
{
    read_number_below_2_32(text)
}

/// Reads the number that a decimal numeral writes, if it is below 2^64.
pub fn decimal_value_u64(text: &[u8]) -> Option<u64>
    ensures value { result ≡ number_below (2 ^ 64) text.now }
    ensures numeral { IfSome result (λ n. text.now ≡ decimal_of n) }
    ensures every { (n : ℕ) → n < 2 ^ 64 → text.now ≡ decimal_of n → result ≡ Some n }
{
    read_number(text)
}

fn read_number_below_2_32(text: &[u8]) -> Option<u32>
    ensures { result ≡ number_below (2 ^ 32) text.now }
{
    let number = read_number(text)?;
    u32::try_from(number).ok()
}

fn read_number(text: &[u8]) -> Option<u64>
    ensures { result ≡ number_below (2 ^ 64) text.now }
{
    if is_decimal(text) {
        value_of_digits(text)
    } else {
        None
    }
}

// Whether the text is a numeral, of a number of any size.
fn is_decimal(text: &[u8]) -> bool
    ensures { result ≡ spec.is_decimal text.now }
{
    !text.is_empty() && has_only_digits(text) && (text[0] != b'0' || text.len() == 1)
}

fn has_only_digits(text: &[u8]) -> bool
    ensures { result ≡ list_all is_ascii_digit text.now }
{
    text.iter().all(|c| c.is_ascii_digit())
}

// The number that the digits write, if it is below 2^64.
fn value_of_digits(text: &[u8]) -> Option<u64>
    requires { list_all is_ascii_digit text.now ≡ true }
    ensures { MatchOption result (2 ^ 64 ≤ digits_value 10 text.now) (λ n. n ≡ digits_value 10 text.now) }
{
    let mut value: u64 = 0;
    for digit in text {
        value = value
            .checked_mul(10)?
            .checked_add(u64::from(*digit - b'0'))?;
    }
    Some(value)
}
