//! Bytes that scatter as encrypted names do.
ghost use Rattle.std.specs.Prelude.{◌≡◌, ◌++◌, ◌*◌, ◌^◌, ◌%◌, replicate};
ghost use Rattle.byte_words.specs.Numbers.{big_endian_bytes};

use item_list::Bytes;
use std::alloc::{AllocError, Global};
use text_words::push_lower_hex;

/// Returns 16 bytes that differ from those of each other number: four of the number times an odd one, and
/// twelve alike.
pub(crate) fn scattered_bytes(number: u32) -> [u8; 16]
    ensures { result ≡ big_endian_bytes 4 ((number * 2246822519) % 2 ^ 32) ++ replicate 12 0x61 }
{
    let mut bytes = [0x61; 16];
    bytes[..4].copy_from_slice(&number.wrapping_mul(2246822519).to_be_bytes());
    bytes
}

/// Returns the name of this number: the 32 digits of these bytes.
pub(crate) fn scattered_name(alloc: Global, number: u32) -> Result<Bytes, AllocError> {
    let mut name = Vec::new(alloc);
    push_lower_hex(&mut name, &scattered_bytes(number))?;
    Ok(Bytes::from_vec(name))
}
