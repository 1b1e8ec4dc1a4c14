//! The blocks in their order: pass by pass, slice by slice, lane by lane (RFC 9106, 3.2). Each block is
//! written over the one of the pass before.

ghost use Rattle.std.specs.Prelude.{◌≡◌, ℕ, ◌+◌, ◌-◌, ◌*◌, ◌/◌, ◌<◌, ◌≤◌, [], length, slice_index_or};
ghost use Rattle.argon_kdf.specs.Blocks.{zero_block};
ghost use Rattle.argon_kdf.specs.Shapes.{IsWithin, block_count, column_of, columns, place, shape};
ghost use Rattle.argon_kdf.specs.References.{address_block};
ghost use Rattle.argon_kdf.specs.Tables.{Table, latest};
ghost use Rattle.argon_kdf.specs.Filling.{joined_block, new_block, with_block, with_lanes};
ghost use Rattle.argon_kdf.specs.Filling.{with_passes, with_places, with_slices};
ghost use Rattle.argon_kdf.specs.Argon2id.{lanes_xored};
ghost use Rattle.argon_kdf.specs.Memory.{IsFilledTo};

use crate::block::{Block, ZERO_BLOCK, join, xor_into};
use crate::digest::first_block;
use crate::layout::{Layout, Place};
use crate::reference::{reference_column, reference_lane, reference_word, refresh};

// Writes G of the block before a place and the block that it refers to.
fn write_joined(block: &mut Block, layout: Layout, memory: &[Block], addresses: &Block, at: Place)
    requires within { IsWithin (shape layout) at }
    requires begun { at.pass ≡ 0 → 2 ≤ column_of (shape layout) at }
    requires whole { length memory.now ≡ block_count (shape layout) }
    ensures { (table : Table) → IsFilledTo (shape layout) memory.now table at
        → (at.pass ≡ 0 → at.slice < 2 → addresses.now ≡ address_block (shape layout) at (at.index / 128 + 1))
        → block.new ≡ joined_block (shape layout) at (latest (shape layout) table at) }
{
    let previous = &memory[layout.offset(at.lane, layout.column_before(at))];
    let word = reference_word(addresses, at, previous);
    let lane = reference_lane(layout, at, word >> 32);
    let column = reference_column(layout, at, lane, word % (1 << 32));
    join(block, previous, &memory[layout.offset(lane, column)]);
}

// Writes the block of a place.
fn write_new(
    block: &mut Block,
    layout: Layout,
    h0: &[u8; 64],
    memory: &[Block],
    addresses: &Block,
    at: Place,
)
    requires within { IsWithin (shape layout) at }
    requires whole { length memory.now ≡ block_count (shape layout) }
    ensures { (table : Table) → IsFilledTo (shape layout) memory.now table at
        → (at.pass ≡ 0 → at.slice < 2 → addresses.now ≡ address_block (shape layout) at (at.index / 128 + 1))
        → block.new ≡ new_block (shape layout) h0.now at (latest (shape layout) table at) }
{
    let column = layout.column_of(at);
    if at.pass > 0 {
        write_joined(block, layout, memory, addresses, at);
        xor_into(block, &memory[layout.offset(at.lane, column)]);
    } else if column < 2 {
        *block = first_block(h0, at.lane, column);
    } else {
        write_joined(block, layout, memory, addresses, at);
    }
}

// Makes the block of a place, in `block` and in memory.
fn fill_place(
    block: &mut Block,
    layout: Layout,
    h0: &[u8; 64],
    memory: &mut [Block],
    addresses: &Block,
    at: Place,
)
    requires within { IsWithin (shape layout) at }
    requires whole { length memory.old ≡ block_count (shape layout) }
    ensures { (table : Table) → IsFilledTo (shape layout) memory.old table at
        → (at.pass ≡ 0 → at.slice < 2 → addresses.now ≡ address_block (shape layout) at (at.index / 128 + 1))
        → IsFilledTo (shape layout) memory.new (with_block (shape layout) h0.now table at)
        (place at.pass at.slice at.lane (at.index + 1)) }
{
    write_new(block, layout, h0, memory, addresses, at);
    memory[layout.offset(at.lane, layout.column_of(at))] = *block;
}

fn fill_segment(
    layout: Layout,
    h0: &[u8; 64],
    memory: &mut [Block],
    pass: usize,
    slice: usize,
    lane: usize,
)
    requires slice { slice < 4 }
    requires lane { lane < layout.lanes }
    requires whole { length memory.old ≡ block_count (shape layout) }
    ensures { (table : Table) → IsFilledTo (shape layout) memory.old table (place pass slice lane 0)
        → IsFilledTo (shape layout) memory.new
        (with_places (shape layout) h0.now table pass slice lane layout.width)
        (place pass slice (lane + 1) 0) }
{
    let mut block = ZERO_BLOCK;
    let mut addresses = ZERO_BLOCK;
    'places: for index in 0..layout.width {
        let at = Place {
            pass,
            slice,
            lane,
            index,
        };
        refresh(&mut addresses, layout, at);
        fill_place(&mut block, layout, h0, memory, &addresses, at);
    }
}

fn fill_slice(layout: Layout, h0: &[u8; 64], memory: &mut [Block], pass: usize, slice: usize)
    requires slice { slice < 4 }
    requires whole { length memory.old ≡ block_count (shape layout) }
    ensures { (table : Table) → IsFilledTo (shape layout) memory.old table (place pass slice 0 0)
        → IsFilledTo (shape layout) memory.new
        (with_lanes (shape layout) h0.now table pass slice layout.lanes)
        (place pass (slice + 1) 0 0) }
{
    'lanes: for lane in 0..layout.lanes {
        fill_segment(layout, h0, memory, pass, slice, lane);
    }
}

fn fill_pass(layout: Layout, h0: &[u8; 64], memory: &mut [Block], pass: usize)
    requires { length memory.old ≡ block_count (shape layout) }
    ensures { (table : Table) → IsFilledTo (shape layout) memory.old table (place pass 0 0 0)
        → IsFilledTo (shape layout) memory.new
        (with_slices (shape layout) h0.now table pass 4) (place (pass + 1) 0 0 0) }
{
    'slices: for slice in 0..4 {
        fill_slice(layout, h0, memory, pass, slice);
    }
}

// Makes every block of every pass, in memory that is full of zeros.
pub(crate) fn fill(layout: Layout, h0: &[u8; 64], memory: &mut [Block])
    requires whole { length memory.old ≡ block_count (shape layout) }
    requires zero { (n : ℕ) → n < block_count (shape layout) → slice_index_or memory.old n [] ≡ zero_block }
    ensures { IsFilledTo (shape layout) memory.new
        (with_passes (shape layout) h0.now layout.passes) (place layout.passes 0 0 0) }
{
    'passes: for pass in 0..layout.passes {
        fill_pass(layout, h0, memory, pass);
    }
}

// Returns the xor of the lanes of the last column.
pub(crate) fn last_column(layout: Layout, memory: &[Block]) -> Block
    requires { length memory.now ≡ block_count (shape layout) }
    ensures { (table : Table) → IsFilledTo (shape layout) memory.now table (place layout.passes 0 0 0)
        → result ≡ lanes_xored (table (layout.passes - 1)) (columns (shape layout) - 1) layout.lanes }
{
    let mut sum = ZERO_BLOCK;
    'lanes: for lane in 0..layout.lanes {
        xor_into(&mut sum, &memory[layout.offset(lane, layout.columns() - 1)]);
    }
    sum
}
