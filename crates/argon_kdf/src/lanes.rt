//! The later passes, with the segments of each slice made at the same time, one thread a lane.

ghost use Rattle.std.specs.Prelude.{◌≡◌, ℕ, ◌+◌, ◌*◌, ◌<◌};
ghost use Rattle.std.specs.Prelude.{All, List, length, slice_index_or};
ghost use Rattle.argon_kdf.specs.Blocks.{zero_block};
ghost use Rattle.argon_kdf.specs.Shapes.{place, shape};
ghost use Rattle.argon_kdf.specs.Slices.{IsWhole, IsWholeBut, slices_of};
ghost use Rattle.argon_kdf.specs.SeenBlocks.{block_at};
ghost use Rattle.argon_kdf.specs.Tables.{Table};
ghost use Rattle.argon_kdf.specs.Filling.{with_lanes, with_passes, with_places, with_slices};
ghost use Rattle.argon_kdf.specs.Memory.{Shows};
ghost use Rattle.argon_kdf.specs.Segments.{BeginsSegment};

use crate::block::Block;
use crate::layout::Layout;
use crate::segment::make_segment;
use crate::slices::Segments;
use std::alloc::Global;
use std::thread::Threads;
use std::{mem, thread};

// Makes a segment in its vector.
fn make_in(
    layout: Layout,
    memory: &[Segments],
    segment: &mut Vec<Block>,
    pass: usize,
    slice: usize,
    lane: usize,
)
    requires later { 0 < pass }
    requires slice { slice < 4 }
    requires lane { lane < layout.lanes }
    requires memory { IsWholeBut (shape layout) slice (slices_of memory.now) }
    requires segment { length segment.old.items ≡ layout.width }
    ensures whole { length segment.new.items ≡ layout.width }
    ensures made { (h0 : List ℕ) (table : Table) (k : ℕ) → k < layout.width
        → BeginsSegment (shape layout) (slices_of memory.now) segment.old.items table
        (place pass slice lane 0)
        → slice_index_or segment.new.items k zero_block
        ≡ with_places (shape layout) h0 table pass slice lane layout.width
        pass lane (slice * layout.width + k) }
{
    make_segment(layout, memory, segment, pass, slice, lane);
}

// Makes the segments of a slice that is taken out of memory.
fn make_segments<R: Threads + Sync>(
    threads: &R,
    layout: Layout,
    memory: &[Segments],
    segments: &mut [Vec<Block>],
    pass: usize,
    slice: usize,
)
    requires later { 0 < pass }
    requires slice { slice < 4 }
    requires memory { IsWholeBut (shape layout) slice (slices_of memory.now) }
    requires lanes { length segments.old ≡ layout.lanes }
    requires parts { All (λ v. length v.items ≡ layout.width) segments.old }
    ensures lanes { length segments.new ≡ layout.lanes }
    ensures parts { All (λ v. length v.items ≡ layout.width) segments.new }
    ensures made { (h0 : List ℕ) (table : Table) (i : ℕ) (d : _) (k : ℕ) → i < layout.lanes → k < layout.width
        → BeginsSegment (shape layout) (slices_of memory.now) (slice_index_or segments.old i d).items table
        (place pass slice i 0)
        → slice_index_or (slice_index_or segments.new i d).items k zero_block
        ≡ with_places (shape layout) h0 table pass slice i layout.width
        pass i (slice * layout.width + k) }
{
    thread::for_each_mut(
        threads,
        segments,
        layout.lanes,
        &|lane, segment| { make_in(layout, memory, segment, pass, slice, lane) },
    );
}

// Takes the slice out of memory while its segments are made.
fn fill_slice<R: Threads + Sync>(
    threads: &R,
    alloc: Global,
    layout: Layout,
    memory: &mut [Segments],
    pass: usize,
    slice: usize,
)
    requires later { 0 < pass }
    requires slice { slice < 4 }
    requires whole { IsWhole (shape layout) (slices_of memory.old) }
    ensures whole { IsWhole (shape layout) (slices_of memory.new) }
    ensures filled { (h0 : List ℕ) (table : Table)
        → Shows (shape layout) (block_at (shape layout) (slices_of memory.old)) table (place pass slice 0 0)
        → Shows (shape layout) (block_at (shape layout) (slices_of memory.new))
        (with_lanes (shape layout) h0 table pass slice layout.lanes) (place pass (slice + 1) 0 0) }
{
    let mut segments = mem::replace(&mut memory[slice], Vec::new(alloc));
    make_segments(threads, layout, memory, &mut segments, pass, slice);
    memory[slice] = segments;
}

fn fill_pass<R: Threads + Sync>(
    threads: &R,
    alloc: Global,
    layout: Layout,
    memory: &mut [Segments],
    pass: usize,
)
    requires later { 0 < pass }
    requires whole { IsWhole (shape layout) (slices_of memory.old) }
    ensures whole { IsWhole (shape layout) (slices_of memory.new) }
    ensures filled { (h0 : List ℕ) (table : Table)
        → Shows (shape layout) (block_at (shape layout) (slices_of memory.old)) table (place pass 0 0 0)
        → Shows (shape layout) (block_at (shape layout) (slices_of memory.new))
        (with_slices (shape layout) h0 table pass 4) (place (pass + 1) 0 0 0) }
{
    'slices: for slice in 0..4 {
        fill_slice(threads, alloc, layout, memory, pass, slice);
    }
}

// Makes every block of the passes after the first. Allocates nothing.
pub(crate) fn later_passes<R: Threads + Sync>(
    threads: &R,
    alloc: Global,
    layout: Layout,
    memory: &mut [Segments],
)
    requires whole { IsWhole (shape layout) (slices_of memory.old) }
    ensures whole { IsWhole (shape layout) (slices_of memory.new) }
    ensures filled { (h0 : List ℕ)
        → Shows (shape layout) (block_at (shape layout) (slices_of memory.old))
        (with_passes (shape layout) h0 1) (place 1 0 0 0)
        → Shows (shape layout) (block_at (shape layout) (slices_of memory.new))
        (with_passes (shape layout) h0 layout.passes) (place layout.passes 0 0 0) }
{
    'passes: for pass in 1..layout.passes {
        fill_pass(threads, alloc, layout, memory, pass);
    }
}
