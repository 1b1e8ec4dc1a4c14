//! Wiping of the memory in which a password was stretched, before it is freed.

ghost use Rattle.std.specs.Prelude.{◌≡◌, length, replicate};
ghost use Rattle.argon_kdf.specs.Blocks.{zero_block};
ghost use Rattle.argon_kdf.specs.Slices.{segments_of, slices_of, zero_segments, zero_slices};

use crate::block::{Block, ZERO_BLOCK};
use crate::slices::Segments;

// Writes zeros over every block. The blocks are in a vector, and a call that the compiler can't see through
// frees its memory, so the stores are not optimized away.
pub(crate) fn wipe_blocks(memory: &mut [Block])
    ensures { memory.new ≡ replicate (length memory.old) zero_block }
{
    memory.fill(ZERO_BLOCK);
}

// The same for memory by slices and lanes.
pub(crate) fn wipe_slices(memory: &mut [Segments])
    ensures { slices_of memory.new ≡ zero_slices (slices_of memory.old) }
{
    'slices: for segments in memory.iter_mut() {
        wipe_segments(segments.as_mut_slice());
    }
}

// The same for a slice.
fn wipe_segments(segments: &mut [Vec<Block>])
    ensures { segments_of segments.new ≡ zero_segments (segments_of segments.old) }
{
    'segments: for segment in segments.iter_mut() {
        wipe_blocks(segment.as_mut_slice());
    }
}
