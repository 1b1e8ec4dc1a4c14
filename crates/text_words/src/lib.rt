//! Numbers, hexadecimal digits, lines and words of a text, read and written, and parts of a path. What each
//! reader accepts is exactly what `specs/` defines; none takes memory. The writers append digits to a text,
//! and take memory for these alone.
#![tactic(auto)]

mod digits;
mod lines;
mod numbers;
mod parts;
mod words;
mod writing;

pub use digits::{hex_bytes, hex_bytes_into, is_lower_hex, lower_hex_bytes, lower_hex_bytes_into};
pub use lines::{Line, line_count, next_line};
pub use numbers::{DecimalText, decimal_digits, decimal_value, decimal_value_u64};
pub use parts::may_be_part;
pub use words::{nth_word, rest_after, two_words, word_count};
pub use writing::{push_decimal, push_lower_hex};
