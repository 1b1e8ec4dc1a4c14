//! Descriptors, by which a wrong key of a protector is detected.

ghost use Rattle.std.specs.Prelude.{◌≡◌, ◌↔◌, ℕ, List, IsSome, IfSome};
ghost use Rattle.std.specs.List.{list_all};
ghost use Rattle.fsc_keys.specs.Keys.{descriptor_of};
ghost use Rattle.text_words.specs.Digits.{is_lower_hex_digit};
ghost use Rattle.protector_meta.specs.Descriptor.{IsDescriptor};

use fsc_keys::descriptor;
use std::marker::Model;

/// 16 lower-case hexadecimal digits, as ASCII.
#[derive(Clone, Copy, Debug, PartialEq, Eq)]
pub struct Descriptor {
    digits: [u8; 16],
}

impl Model for Descriptor {
    ghost Value = { List ℕ };

    ghost view = { λ descriptor. descriptor.digits };

    ghost invariant = { λ descriptor. IsDescriptor descriptor.digits };

    ghost inverse = { λ digits. record { digits = digits } };
}

impl Descriptor {
    /// Returns the descriptor of a key: the first 8 bytes of SHA-512 applied twice, as in the fscrypt
    /// tool.
    pub fn of_key(key: &[u8]) -> Descriptor
        ensures { result ≡ descriptor_of key.now }
    {
        Descriptor {
            digits: descriptor(key),
        }
    }

    /// Returns the descriptor of these digits, or `None` if they are not 16 lower-case hexadecimal
    /// digits.
    pub fn read(digits: &[u8]) -> Option<Descriptor>
        ensures value { IfSome result (λ descriptor. descriptor ≡ digits.now) }
        ensures exact { IsSome result ↔ IsDescriptor digits.now }
    {
        if digits.len() != 16 || !are_lower_hex_digits(digits) {
            return None;
        }
        let mut own = [0; 16];
        own.copy_from_slice(digits);
        Some(Descriptor { digits: own })
    }

    /// Returns the 16 digits.
    pub fn bytes(&self) -> &[u8]
        ensures value { result.now ≡ self.now }
        ensures descriptor { IsDescriptor result.now }
    {
        &self.digits
    }
}

fn are_lower_hex_digits(text: &[u8]) -> bool
    ensures { result ≡ list_all is_lower_hex_digit text.now }
{
    text.iter().all(|c| matches!(*c, b'0'..=b'9' | b'a'..=b'f'))
}
