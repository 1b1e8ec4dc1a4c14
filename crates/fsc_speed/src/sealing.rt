//! The kernel of contents: a block that is sealed repeatedly, whole or in smaller units.
ghost use Rattle.std.specs.Prelude.{◌≡◌, length, replicate};
ghost use Rattle.std.specs.Fn.{iterate};
ghost use Rattle.sha2.specs.Sha256.{sha256};
ghost use Rattle.data_crypt.specs.Units.{sealed_block};

use data_crypt::{BLOCK_SIZE, seal_block};
use policy_ctx::Unit;
use sha2::{Digest, Sha256};
use xts_mode::XtsKey;

const SEAL_KEY: [u8; 64] = [0x5a; 64];

/// Seals a block of contents in place repeatedly, its first unit with index 7.
pub(crate) fn seal_blocks(unit: Unit, count: u32) -> [u8; 32]
    ensures { result ≡ sha256 (iterate (sealed_block SEAL_KEY unit 7) count (replicate BLOCK_SIZE 0)) }
{
    let mut block = [0; BLOCK_SIZE];
    repeat_seal(&mut block, unit, count);
    Sha256::digest(&block)
}

#[tactic(auto, using(crate::proofs::Repeating::iterate_more))]
fn repeat_seal(block: &mut [u8], unit: Unit, count: u32)
    requires { length block.old ≡ BLOCK_SIZE }
    ensures { block.new ≡ iterate (sealed_block SEAL_KEY unit 7) count block.old }
{
    let key = XtsKey::new(&SEAL_KEY);
    for _ in 0..count {
        seal_block(&key, unit, 7, block);
    }
}
