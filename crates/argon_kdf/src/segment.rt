//! A segment made in its place, beside the others of its slice: from its own blocks, and from memory, out
//! of which the slice is taken. No reference goes into another lane's segment of the slice (RFC 9106, 3.4).

ghost use Rattle.std.specs.Prelude.{◌≡◌, ◌≢◌, ℕ, ◌+◌, ◌-◌, ◌*◌, ◌/◌, ◌%◌, ◌<◌};
ghost use Rattle.std.specs.Prelude.{◌≤◌, List, length, slice_index_or};
ghost use Rattle.argon_kdf.specs.Blocks.{zero_block};
ghost use Rattle.argon_kdf.specs.Shapes.{IsWithin, column_of, columns, place, shape};
ghost use Rattle.argon_kdf.specs.Slices.{HasSlice, IsWholeBut, slices_of};
ghost use Rattle.argon_kdf.specs.SeenBlocks.{seen_block};
ghost use Rattle.argon_kdf.specs.References.{address_block};
ghost use Rattle.argon_kdf.specs.Tables.{Table, latest};
ghost use Rattle.argon_kdf.specs.Filling.{joined_block, with_places};
ghost use Rattle.argon_kdf.specs.Segments.{BeginsSegment, IsReadable};

use crate::block::{Block, ZERO_BLOCK, join, xor_into};
use crate::layout::{Layout, Place};
use crate::reference::{reference_column, reference_lane, reference_word};
use crate::slices::{Segments, block_at};

// Returns the block of a lane and a column as the segment of a place sees it.
#[tactic(auto, unfolding(crate::specs::SeenBlocks::seen_block))]
fn seen<'a>(
    layout: Layout,
    memory: &'a [Segments],
    segment: &'a [Block],
    at: Place,
    lane: usize,
    column: usize,
) -> &'a Block
    requires lane { lane < layout.lanes }
    requires column { column < columns (shape layout) }
    requires own { column / layout.width ≡ at.slice → column % layout.width < length segment.now }
    requires other { column / layout.width ≢ at.slice
        → HasSlice (shape layout) (slices_of memory.now) (column / layout.width) }
    ensures { result.now ≡ seen_block (shape layout) (slices_of memory.now) segment.now at lane column }
{
    if column / layout.width == at.slice {
        &segment[column % layout.width]
    } else {
        block_at(layout, memory, lane, column)
    }
}

// Writes G of the block before a place and the block that it refers to.
pub(crate) fn write_joined(
    block: &mut Block,
    layout: Layout,
    memory: &[Segments],
    segment: &[Block],
    addresses: &Block,
    at: Place,
)
    requires within { IsWithin (shape layout) at }
    requires begun { at.pass ≡ 0 → 2 ≤ column_of (shape layout) at }
    requires readable { IsReadable (shape layout) (slices_of memory.now) segment.now at }
    ensures { (table : Table) → BeginsSegment (shape layout) (slices_of memory.now) segment.now table at
        → (at.pass ≡ 0 → at.slice < 2 → addresses.now ≡ address_block (shape layout) at (at.index / 128 + 1))
        → block.new ≡ joined_block (shape layout) at (latest (shape layout) table at) }
{
    let previous = seen(
        layout,
        memory,
        segment,
        at,
        at.lane,
        layout.column_before(at),
    );
    let word = reference_word(addresses, at, previous);
    let lane = reference_lane(layout, at, word >> 32);
    let column = reference_column(layout, at, lane, word % (1 << 32));
    join(
        block,
        previous,
        seen(layout, memory, segment, at, lane, column),
    );
}

// Makes the segment of a slice and a lane in a later pass, each block over the one of the pass before.
pub(crate) fn make_segment(
    layout: Layout,
    memory: &[Segments],
    segment: &mut [Block],
    pass: usize,
    slice: usize,
    lane: usize,
)
    requires later { 0 < pass }
    requires slice { slice < 4 }
    requires lane { lane < layout.lanes }
    requires memory { IsWholeBut (shape layout) slice (slices_of memory.now) }
    requires segment { length segment.old ≡ layout.width }
    ensures whole { length segment.new ≡ layout.width }
    ensures made { (h0 : List ℕ) (table : Table) (k : ℕ) → k < layout.width
        → BeginsSegment (shape layout) (slices_of memory.now) segment.old table (place pass slice lane 0)
        → slice_index_or segment.new k zero_block
        ≡ with_places (shape layout) h0 table pass slice lane layout.width
        pass lane (slice * layout.width + k) }
{
    let mut block = ZERO_BLOCK;
    'places: for index in 0..layout.width {
        let at = Place {
            pass,
            slice,
            lane,
            index,
        };
        write_joined(&mut block, layout, memory, segment, &ZERO_BLOCK, at);
        xor_into(&mut segment[index], &block);
    }
}
