//! The kernels of wipes: zeros or scattered bytes are copied, and the copy is wiped.
ghost use Rattle.std.specs.Prelude.{◌≡◌, IfOk, length, replicate};
ghost use Rattle.sha2.specs.Sha256.{sha256};

use byte_words::wipe;
use sha2::{Digest, Sha256};
use std::alloc::{AllocError, Global};

/// The bytes that are wiped.
#[derive(Clone, Copy)]
pub(crate) enum Wiped {
    Zeros,
    Scattered,
}

impl Wiped {
    /// Returns the bytes of this name.
    pub(crate) fn named(name: &str) -> Option<Wiped> {
        match name {
            "zeros" => Some(Wiped::Zeros),
            "scattered" => Some(Wiped::Scattered),
            _ => None,
        }
    }

    // The difference of the numbers of two neighbours; a byte is the first of the four bytes of its
    // number.
    fn step(self) -> u32 {
        match self {
            Wiped::Zeros => 0,
            Wiped::Scattered => 2654435761,
        }
    }
}

/// Copies `size` bytes and wipes the copy, repeatedly.
pub(crate) fn wipe_copies(
    alloc: Global,
    wiped: Wiped,
    size: usize,
    count: u32,
) -> Result<[u8; 32], AllocError>
    ensures { IfOk result (λ digest. digest ≡ sha256 (replicate size 0)) }
{
    let mut source = vec![in alloc; 0; size]?;
    let mut copy = vec![in alloc; 0; size]?;
    write_steps(source.as_mut_slice(), wiped.step());
    repeat_wipe(source.as_slice(), copy.as_mut_slice(), count);
    Ok(Sha256::digest(copy.as_slice()))
}

fn write_steps(bytes: &mut [u8], step: u32)
    ensures { length bytes.new ≡ length bytes.old }
{
    let mut number: u32 = 0;
    for i in 0..bytes.len() {
        number = number.wrapping_add(step);
        bytes[i] = number.to_be_bytes()[0];
    }
}

fn repeat_wipe(source: &[u8], copy: &mut [u8], count: u32)
    requires length { length source.now ≡ length copy.old }
    requires zeros { copy.old ≡ replicate (length copy.old) 0 }
    ensures { copy.new ≡ copy.old }
{
    for _ in 0..count {
        copy.copy_from_slice(source);
        wipe(copy);
    }
}
