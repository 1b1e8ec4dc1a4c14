//! The password hash Argon2id, version 0x13 (RFC 9106).
#![tactic(auto)]

ghost use Rattle.std.specs.Prelude.{◌≡◌, ℕ, ◌<◌, ◌≤◌, [], length};
ghost use Rattle.std.specs.Prelude.{slice_index_or, IfOk, OnOk, OnErr, Ok};
ghost use Rattle.argon_kdf.specs.Blocks.{zero_block};
ghost use Rattle.argon_kdf.specs.CostLimits.{checked_costs};
ghost use Rattle.argon_kdf.specs.Argon2id.{argon2id_tag};

use block::{Block, ZERO_BLOCK};
pub use by_lanes::argon2id_lanes;
use byte_words::{wipe, wipe_words};
pub use costs::{CostFault, Costs};
use digest::{first_digest, write_tag};
use fill::{fill, last_column};
pub use law::table_meets_the_recursion;
use layout::Layout;
pub use limits::{
    MAX_KIB, MAX_LANES, MAX_PASSES, MAX_TEXT_BYTES, MIN_KIB_PER_LANE, MIN_SALT_BYTES,
};
use std::alloc::{AllocError, Global};
pub use stretch::{LaneStretch, PlainStretch, Stretch};
pub use texts::Texts;
use wiping::wipe_blocks;

mod block;
mod block_bytes;
mod by_lanes;
mod costs;
mod digest;
mod fill;
mod first_pass;
mod lanes;
mod law;
mod layout;
mod limits;
mod reference;
mod segment;
mod slices;
mod stretch;
mod texts;
mod wiping;

// Returns memory of `count` blocks of zeros.
fn zero_blocks(alloc: Global, count: usize) -> Result<Vec<Block>, AllocError>
    requires { count ≤ MAX_KIB }
    ensures whole { IfOk result (λ memory. length memory.items ≡ count) }
    ensures zero { IfOk result (λ memory. (n : ℕ) → n < count
        → slice_index_or memory.items n [] ≡ zero_block) }
{
    let memory = vec![in alloc; ZERO_BLOCK; count]?;
    Ok(memory)
}

/// Writes the 32-byte tag that Argon2id makes of a password, a salt, a secret and further bytes. The costs
/// are in the ranges of [`Costs`], the texts have the lengths of [`Texts`].
///
/// All memory, at most `kib` KiB, is allocated first. The only error is out of memory; the tag is unchanged
/// then.
pub fn argon2id(
    alloc: Global,
    costs: &Costs,
    texts: Texts,
    tag: &mut [u8; 32],
) -> Result<(), AllocError>
    requires costs { checked_costs costs.now ≡ Ok tt }
    requires password { length texts.password.now ≤ MAX_TEXT_BYTES }
    requires salt_least { MIN_SALT_BYTES ≤ length texts.salt.now }
    requires salt { length texts.salt.now ≤ MAX_TEXT_BYTES }
    requires secret { length texts.secret.now ≤ MAX_TEXT_BYTES }
    requires extra { length texts.extra.now ≤ MAX_TEXT_BYTES }
    ensures tag { OnOk result (tag.new ≡ argon2id_tag costs.now texts.entry.password.now texts.entry.salt.now
        texts.entry.secret.now texts.entry.extra.now) }
    ensures kept { OnErr result (tag.new ≡ tag.old) }
{
    let layout = Layout::new(costs);
    let mut memory = zero_blocks(alloc, layout.block_count())?;
    let mut h0 = first_digest(costs, texts);
    fill(layout, &h0, &mut memory);
    wipe(&mut h0);
    let mut last = last_column(layout, &memory);
    wipe_blocks(&mut memory);
    write_tag(&last, tag);
    wipe_words(&mut last);
    Ok(())
}
