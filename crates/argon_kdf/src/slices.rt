//! Memory with a vector for each segment: slice by slice, and in a slice lane by lane. So a slice can be
//! taken out, and its segments made by threads of their own.

ghost use Rattle.std.specs.Prelude.{◌≡◌, ◌-◌, ◌/◌, ◌<◌, [], All, IfOk, length, vec_capacity};
ghost use Rattle.argon_kdf.specs.Shapes.{columns, place, shape};
ghost use Rattle.argon_kdf.specs.Slices.{HasSlice, IsWhole, slices_of};
ghost use Rattle.argon_kdf.specs.SeenBlocks.{block_at};
ghost use Rattle.argon_kdf.specs.Segments.{HasSegmentSpace};
ghost use Rattle.argon_kdf.specs.Tables.{Table};
ghost use Rattle.argon_kdf.specs.Memory.{Shows};
ghost use Rattle.argon_kdf.specs.Argon2id.{lanes_xored};

use crate::block::{Block, ZERO_BLOCK, xor_into};
use crate::layout::Layout;
use std::alloc::{AllocError, Global};

// A pass goes through memory in this many slices.
pub(crate) const SLICES: usize = 4;

// The segments of a slice, one for each lane.
pub(crate) type Segments = Vec<Vec<Block>>;

// Reserves capacity for the segments of a slice.
fn reserved_segments(alloc: Global, layout: Layout) -> Result<Segments, AllocError>
    ensures lanes { IfOk result (λ segments. length segments.items ≡ layout.lanes) }
    ensures empty { IfOk result (λ segments. All (λ v. v.items ≡ []) segments.items) }
    ensures room { IfOk result (λ segments. All (λ v. vec_capacity v ≡ layout.width) segments.items) }
{
    let mut segments = Vec::new(alloc);
    'lanes: for _ in 0..layout.lanes {
        segments.push(Vec::with_capacity(alloc, layout.width)?)?;
    }
    Ok(segments)
}

// Reserves capacity for all slices.
pub(crate) fn reserved_slices(alloc: Global, layout: Layout) -> Result<Vec<Segments>, AllocError>
    ensures count { IfOk result (λ rooms. length rooms.items ≡ 4) }
    ensures rooms { IfOk result (λ rooms. All (λ s. HasSegmentSpace (shape layout) s.items) rooms.items) }
{
    let mut rooms = Vec::new(alloc);
    'slices: for _ in 0..SLICES {
        rooms.push(reserved_segments(alloc, layout)?)?;
    }
    Ok(rooms)
}

// Returns the block of a lane and a column.
pub(crate) fn block_at(layout: Layout, memory: &[Segments], lane: usize, column: usize) -> &Block
    requires lane { lane < layout.lanes }
    requires column { column < columns (shape layout) }
    requires slice { HasSlice (shape layout) (slices_of memory.now) (column / layout.width) }
    ensures { result.now ≡ block_at (shape layout) (slices_of memory.now) lane column }
{
    &memory[column / layout.width][lane][column % layout.width]
}

// Returns the xor of the lanes of the last column.
pub(crate) fn last_column(layout: Layout, memory: &[Segments]) -> Block
    requires { IsWhole (shape layout) (slices_of memory.now) }
    ensures { (table : Table)
        → Shows (shape layout) (block_at (shape layout) (slices_of memory.now)) table
        (place layout.passes 0 0 0)
        → result ≡ lanes_xored (table (layout.passes - 1)) (columns (shape layout) - 1) layout.lanes }
{
    let mut sum = ZERO_BLOCK;
    'lanes: for lane in 0..layout.lanes {
        xor_into(
            &mut sum,
            block_at(layout, memory, lane, layout.columns() - 1),
        );
    }
    sum
}
