//! The first pass, in memory that grows: a slice at a time, in which the segments grow at the same time, one
//! thread a lane. So each thread touches the memory of its lane first, and writes no block twice.

ghost use Rattle.std.specs.Prelude.{◌≡◌, ℕ, ◌+◌, ◌*◌, ◌/◌, ◌<◌, All, IfOk, [], ◌∷◌, ◌++◌};
ghost use Rattle.std.specs.Prelude.{length, slice_index_or, vec_capacity};
ghost use Rattle.argon_kdf.specs.Blocks.{zero_block};
ghost use Rattle.argon_kdf.specs.Shapes.{IsWithin, place, shape};
ghost use Rattle.argon_kdf.specs.Slices.{HasSlices, IsSlice, IsWhole, segments_of, slices_of};
ghost use Rattle.argon_kdf.specs.SeenBlocks.{block_at};
ghost use Rattle.argon_kdf.specs.References.{address_block};
ghost use Rattle.argon_kdf.specs.Tables.{Table, latest};
ghost use Rattle.argon_kdf.specs.Filling.{new_block, with_lanes, with_passes, with_places};
ghost use Rattle.argon_kdf.specs.Memory.{Shows};
ghost use Rattle.argon_kdf.specs.Segments.{BeginsSegment, IsReadable, HasSegmentSpace};

use crate::block::{Block, ZERO_BLOCK};
use crate::digest::first_block;
use crate::layout::{Layout, Place};
use crate::reference::refresh;
use crate::segment::write_joined;
use crate::slices::{SLICES, Segments};
use std::alloc::{AllocError, Global};
use std::thread::Threads;
use std::{mem, thread};

// Writes the block of a place of the first pass.
fn write_new(
    block: &mut Block,
    layout: Layout,
    h0: &[u8; 64],
    memory: &[Segments],
    segment: &[Block],
    addresses: &Block,
    at: Place,
)
    requires first { at.pass ≡ 0 }
    requires within { IsWithin (shape layout) at }
    requires readable { IsReadable (shape layout) (slices_of memory.now) segment.now at }
    ensures { (table : Table) → BeginsSegment (shape layout) (slices_of memory.now) segment.now table at
        → (at.slice < 2 → addresses.now ≡ address_block (shape layout) at (at.index / 128 + 1))
        → block.new ≡ new_block (shape layout) h0.now at (latest (shape layout) table at) }
{
    let column = layout.column_of(at);
    if column < 2 {
        *block = first_block(h0, at.lane, column);
    } else {
        write_joined(block, layout, memory, segment, addresses, at);
    }
}

// Makes the segment of a slice and a lane, in a vector with capacity for it.
fn grow_segment(
    layout: Layout,
    h0: &[u8; 64],
    memory: &[Segments],
    segment: &mut Vec<Block>,
    slice: usize,
    lane: usize,
)
    requires slice { slice < 4 }
    requires lane { lane < layout.lanes }
    requires memory { HasSlices (shape layout) slice (slices_of memory.now) }
    requires empty { segment.old.items ≡ [] }
    requires room { vec_capacity segment.old ≡ layout.width }
    ensures whole { length segment.new.items ≡ layout.width }
    ensures made { (table : Table) (k : ℕ) → k < layout.width
        → BeginsSegment (shape layout) (slices_of memory.now) [] table (place 0 slice lane 0)
        → slice_index_or segment.new.items k zero_block
        ≡ with_places (shape layout) h0.now table 0 slice lane layout.width
        0 lane (slice * layout.width + k) }
{
    let mut block = ZERO_BLOCK;
    let mut addresses = ZERO_BLOCK;
    'places: for index in 0..layout.width {
        let at = Place {
            pass: 0,
            slice,
            lane,
            index,
        };
        refresh(&mut addresses, layout, at);
        write_new(&mut block, layout, h0, memory, segment, &addresses, at);
        let _pushed = segment.push(block);
    }
}

// Makes the segments of a slice.
fn grow_segments<R: Threads + Sync>(
    threads: &R,
    layout: Layout,
    h0: &[u8; 64],
    memory: &[Segments],
    segments: &mut [Vec<Block>],
    slice: usize,
)
    requires slice { slice < 4 }
    requires memory { HasSlices (shape layout) slice (slices_of memory.now) }
    requires lanes { length segments.old ≡ layout.lanes }
    requires empty { All (λ v. v.items ≡ []) segments.old }
    requires room { All (λ v. vec_capacity v ≡ layout.width) segments.old }
    ensures lanes { length segments.new ≡ layout.lanes }
    ensures parts { All (λ v. length v.items ≡ layout.width) segments.new }
    ensures made { (table : Table) (i : ℕ) (d : _) (k : ℕ) → i < layout.lanes → k < layout.width
        → BeginsSegment (shape layout) (slices_of memory.now) [] table (place 0 slice i 0)
        → slice_index_or (slice_index_or segments.new i d).items k zero_block
        ≡ with_places (shape layout) h0.now table 0 slice i layout.width
        0 i (slice * layout.width + k) }
{
    thread::for_each_mut(
        threads,
        segments,
        layout.lanes,
        &|lane, segment| { grow_segment(layout, h0, memory, segment, slice, lane) },
    );
}

// Makes the slice after those in `memory`, in vectors with capacity for it, and returns it.
fn grow_slice<R: Threads + Sync>(
    threads: &R,
    layout: Layout,
    h0: &[u8; 64],
    memory: &[Segments],
    mut segments: Segments,
    slice: usize,
) -> Segments
    requires slice { slice < 4 }
    requires memory { HasSlices (shape layout) slice (slices_of memory.now) }
    requires room { HasSegmentSpace (shape layout) segments.items }
    ensures whole { IsSlice (shape layout) (segments_of result.items) }
    ensures made { (table : Table)
        → Shows (shape layout) (block_at (shape layout) (slices_of memory.now)) table (place 0 slice 0 0)
        → Shows (shape layout) (block_at (shape layout)
        (slices_of memory.now ++ segments_of result.items ∷ []))
        (with_lanes (shape layout) h0.now table 0 slice layout.lanes) (place 0 (slice + 1) 0 0) }
{
    grow_segments(threads, layout, h0, memory, &mut segments, slice);
    segments
}

// Makes every block of the first pass, in vectors with capacity for all slices. Allocates only a list of
// the slices, before the first block.
pub(crate) fn first_pass<R: Threads + Sync>(
    threads: &R,
    alloc: Global,
    layout: Layout,
    h0: &[u8; 64],
    rooms: &mut [Segments],
) -> Result<Vec<Segments>, AllocError>
    requires count { length rooms.old ≡ 4 }
    requires rooms { All (λ s. HasSegmentSpace (shape layout) s.items) rooms.old }
    ensures whole { IfOk result (λ memory. IsWhole (shape layout) (slices_of memory.items)) }
    ensures filled { IfOk result (λ memory.
        Shows (shape layout) (block_at (shape layout) (slices_of memory.items))
        (with_passes (shape layout) h0.now 1) (place 1 0 0 0)) }
{
    let mut memory = Vec::with_capacity(alloc, SLICES)?;
    'slices: for slice in 0..SLICES {
        let room = mem::replace(&mut rooms[slice], Vec::new(alloc));
        memory.push(grow_slice(threads, layout, h0, &memory, room, slice))?;
    }
    Ok(memory)
}
