//! Labels, by which records and scripts name protectors and policies.

ghost use Rattle.std.specs.Prelude.{◌≡◌, ◌↔◌, ℕ, List, IsSome};
ghost use Rattle.std.specs.List.{list_all};
ghost use Rattle.byte_words.specs.Bytes.{AreBytes};
ghost use Rattle.short_bytes.specs.Label.{IsLabel, is_label, is_label_character, label_of};

use crate::filled::Filled;
use std::marker::Model;

/// The maximum number of bytes of a label.
pub const MAX_LABEL_BYTES: usize = 32;

/// 1 to 32 of the characters `a` to `z`, `0` to `9`, `_` and `-`.
#[derive(Clone, Copy, Debug, PartialEq, Eq, Hash)]
pub struct Label {
    bytes: Filled<MAX_LABEL_BYTES>,
}

impl Model for Label {
    ghost Value = { List ℕ };

    ghost view = { λ label. label.bytes };

    ghost invariant = { λ label. IsLabel label.bytes };

    ghost inverse = { λ bytes. record { bytes = bytes } };
}

impl Label {
    /// Returns the label of these bytes, or `None` if they are no label.
    pub fn read(bytes: &[u8]) -> Option<Label>
        ensures value { result ≡ label_of bytes.now }
        ensures label { IsSome result ↔ IsLabel bytes.now }
    {
        if !is_label(bytes) {
            return None;
        }
        Some(Label {
            bytes: Filled::of(bytes),
        })
    }

    /// Returns the bytes of the label.
    pub fn bytes(&self) -> &[u8]
        ensures value { result.now ≡ self.now }
        ensures label { IsLabel result.now }
        ensures ranged { AreBytes result.now }
    {
        self.bytes.bytes()
    }
}

fn is_label(bytes: &[u8]) -> bool
    ensures { result ≡ is_label bytes.now }
{
    !bytes.is_empty() && bytes.len() <= MAX_LABEL_BYTES && are_label_characters(bytes)
}

fn are_label_characters(bytes: &[u8]) -> bool
    ensures { result ≡ list_all is_label_character bytes.now }
{
    bytes.iter().all(|c| is_label_character(*c))
}

fn is_label_character(c: u8) -> bool
    ensures { result ≡ is_label_character c }
{
    matches!(c, b'a'..=b'z' | b'0'..=b'9' | b'_' | b'-')
}
