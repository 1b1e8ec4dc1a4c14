//! The tag, with the lanes filled at the same time.

ghost use Rattle.std.specs.Prelude.{◌≡◌, ◌≤◌, length, OnOk, OnErr, Ok};
ghost use Rattle.argon_kdf.specs.CostLimits.{checked_costs};
ghost use Rattle.argon_kdf.specs.Argon2id.{argon2id_tag};

use crate::digest::{first_digest, write_tag};
use crate::first_pass::first_pass;
use crate::lanes::later_passes;
use crate::layout::Layout;
use crate::limits::{MAX_TEXT_BYTES, MIN_SALT_BYTES};
use crate::slices::{last_column, reserved_slices};
use crate::wiping::wipe_slices;
use crate::{Costs, Texts};
use byte_words::{wipe, wipe_words};
use std::alloc::{AllocError, Global};
use std::thread::Threads;

/// Writes the tag that [`argon2id`] writes, with the segments of each slice made at the same time, in at
/// most one thread a lane.
///
/// The blocks' memory, at most `kib` KiB with a vector for each segment, is allocated first. The only error
/// is out of memory; the tag is unchanged then.
pub fn argon2id_lanes<R: Threads + Sync>(
    threads: &R,
    alloc: Global,
    costs: &Costs,
    texts: Texts,
    tag: &mut [u8; 32],
) -> Result<(), AllocError>
    requires costs { checked_costs costs.now ≡ Ok tt }
    requires password { length texts.password.now ≤ MAX_TEXT_BYTES }
    requires salt_least { MIN_SALT_BYTES ≤ length texts.salt.now }
    requires salt { length texts.salt.now ≤ MAX_TEXT_BYTES }
    requires secret { length texts.secret.now ≤ MAX_TEXT_BYTES }
    requires extra { length texts.extra.now ≤ MAX_TEXT_BYTES }
    ensures tag { OnOk result (tag.new ≡ argon2id_tag costs.now texts.entry.password.now texts.entry.salt.now
        texts.entry.secret.now texts.entry.extra.now) }
    ensures kept { OnErr result (tag.new ≡ tag.old) }
{
    let layout = Layout::new(costs);
    let mut rooms = reserved_slices(alloc, layout)?;
    let mut h0 = first_digest(costs, texts);
    let made = first_pass(threads, alloc, layout, &h0, &mut rooms);
    wipe(&mut h0);
    let mut memory = made?;
    later_passes(threads, alloc, layout, &mut memory);
    let mut last = last_column(layout, &memory);
    wipe_slices(&mut memory);
    write_tag(&last, tag);
    wipe_words(&mut last);
    Ok(())
}
