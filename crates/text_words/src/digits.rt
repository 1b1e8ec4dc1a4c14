//! Hexadecimal digits: two for each byte, the high four bits first.

ghost use Rattle.std.specs.Prelude.{◌≡◌, ◌↔◌, ◌*◌, ◌<◌, ℕ, List, Ok, Some, true, length, is_some, IsTrue, IfSome};
ghost use Rattle.std.specs.Bool.{OnTrue};
ghost use Rattle.std.specs.List.{list_all, AllPass};
ghost use Rattle.hex.specs.Hex.{IsBytes, decode_pairs, encode_lower, hex_digit_value, is_hex_digit};
ghost use Rattle.text_words.specs.Digits.{hex_bytes_of_length, lower_hex_bytes_of_length};
ghost use Rattle.text_words.specs.Digits.{is_lower_hex_digit, ReadsInto};

/// Reads the bytes that digits of either case spell into `out`. Returns false, and leaves `out` as it was,
/// unless the text is exactly two digits for each byte of `out`.
pub fn hex_bytes_into(text: &[u8], out: &mut [u8]) -> bool
    ensures value { ReadsInto (hex_bytes_of_length (length out.old) text.now) out.old out.new result }
    ensures exact { IsTrue result ↔ ((length text.now ≡ 2 * length out.old) × AllPass is_hex_digit text.now) }
{
    read_digits(text, out)
}

/// Reads the bytes that digits spell into `out`, if no upper-case letter is among them. Returns false, and
/// leaves `out` as it was, unless the text is exactly two such digits for each byte of `out`.
pub fn lower_hex_bytes_into(text: &[u8], out: &mut [u8]) -> bool
    ensures value { ReadsInto (lower_hex_bytes_of_length (length out.old) text.now) out.old out.new result }
    ensures written { OnTrue result (text.now ≡ encode_lower out.new) }
    ensures every { (bytes : List ℕ) → IsBytes bytes → length bytes ≡ length out.old
        → text.now ≡ encode_lower bytes → result ≡ true }
{
    read_lower_digits(text, out)
}

/// The `N` bytes that digits of either case spell, two digits for each byte. None for another text.
pub fn hex_bytes<const N: usize>(text: &[u8]) -> Option<[u8; N]>
    ensures { result ≡ hex_bytes_of_length N text.now }
{
    let mut bytes = [0; N];
    if read_digits(text, &mut bytes) {
        Some(bytes)
    } else {
        None
    }
}

/// Returns the `N` bytes that digits spell, if no upper-case letter is among them. Returns `None` for any
/// other text.
pub fn lower_hex_bytes<const N: usize>(text: &[u8]) -> Option<[u8; N]>
    ensures value { result ≡ lower_hex_bytes_of_length N text.now }
    ensures written { IfSome result (λ bytes. text.now ≡ encode_lower bytes) }
{
    let mut bytes = [0; N];
    if lower_hex_bytes_into(text, &mut bytes) {
        Some(bytes)
    } else {
        None
    }
}

/// Whether a text is the lower-case digits of `count` bytes, two for each.
pub fn is_lower_hex(text: &[u8], count: usize) -> bool
    ensures { result ≡ is_some (lower_hex_bytes_of_length count text.now) }
{
    text.len() % 2 == 0 && text.len() / 2 == count && has_only_lower_hex_digits(text)
}

fn read_digits(text: &[u8], out: &mut [u8]) -> bool
    ensures { ReadsInto (hex_bytes_of_length (length out.old) text.now) out.old out.new result }
{
    if text.len() != 2 * out.len() || !has_only_hex_digits(text) {
        return false;
    }
    decode_into(text, out);
    true
}

fn read_lower_digits(text: &[u8], out: &mut [u8]) -> bool
    ensures { ReadsInto (lower_hex_bytes_of_length (length out.old) text.now) out.old out.new result }
{
    has_only_lower_hex_digits(text) && read_digits(text, out)
}

// Writes the bytes that digits spell. No branch and no address depends on a digit: the digits may be those
// of a secret, and the compiler can read many at once.
fn decode_into(text: &[u8], out: &mut [u8])
    requires size { length text.now ≡ 2 * length out.old }
    requires digits { list_all is_hex_digit text.now ≡ true }
    ensures { decode_pairs 0 text.now ≡ Ok out.new }
{
    'bytes: for i in 0..out.len() {
        out[i] = 16 * digit_value(text[2 * i]) + digit_value(text[2 * i + 1]);
    }
}

// The low four bits of an ASCII digit 0 to 9 are its value, those of a letter a to f or A to F its value
// less 9; letters are from 64 on.
#[inline(always)]
fn digit_value(digit: u8) -> u8
    requires { is_hex_digit digit ≡ true }
    ensures value { hex_digit_value digit ≡ Some result }
    ensures low { result < 16 }
{
    digit % 16 + 9 * (digit / 64)
}

// Every byte is tested, also after one that is no digit.
fn has_only_hex_digits(text: &[u8]) -> bool
    ensures { result ≡ list_all is_hex_digit text.now }
{
    let mut only = true;
    'digits: for i in 0..text.len() {
        let digit = is_hex_digit(text[i]);
        only = only && digit;
    }
    only
}

// Every byte is tested, also after one that is no such digit.
fn has_only_lower_hex_digits(text: &[u8]) -> bool
    ensures { result ≡ list_all is_lower_hex_digit text.now }
{
    let mut only = true;
    'digits: for i in 0..text.len() {
        let digit = is_lower_hex_digit(text[i]);
        only = only && digit;
    }
    only
}

#[inline(always)]
fn is_hex_digit(byte: u8) -> bool
    ensures { result ≡ is_hex_digit byte }
{
    byte.is_ascii_hexdigit()
}

#[inline(always)]
fn is_lower_hex_digit(byte: u8) -> bool
    ensures { result ≡ is_lower_hex_digit byte }
{
    matches!(byte, b'0'..=b'9' | b'a'..=b'f')
}
