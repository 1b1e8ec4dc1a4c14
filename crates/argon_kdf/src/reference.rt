//! Which block a new block refers to, besides the one before it (RFC 9106, 3.4).

ghost use Rattle.std.specs.Prelude.{◌≡◌, ◌+◌, ◌-◌, ◌*◌, ◌/◌, ◌%◌, ◌^◌, ◌<◌, ◌≤◌};
ghost use Rattle.argon_kdf.specs.Shapes.{column_of, columns, shape};
ghost use Rattle.argon_kdf.specs.References.{address_block, address_input, choice, choices, finished};
ghost use Rattle.argon_kdf.specs.References.{oldest, reference_column, reference_lane, reference_word};

use crate::block::{Block, ZERO_BLOCK, join};
use crate::layout::{Layout, Place};
use crate::limits::MAX_KIB;

// The type of Argon2id, and of no other Argon2.
const TYPE: u64 = 2;

#[tactic(auto, unfolding(crate::specs::References::address_input))]
fn address_input(layout: Layout, at: Place, counter: usize) -> Block
    ensures { result ≡ address_input (shape layout) at counter }
{
    let mut input = ZERO_BLOCK;
    input[0] = at.pass as u64;
    input[1] = at.lane as u64;
    input[2] = at.slice as u64;
    input[3] = layout.block_count() as u64;
    input[4] = layout.passes as u64;
    input[5] = TYPE;
    input[6] = counter as u64;
    input
}

fn write_addresses(addresses: &mut Block, layout: Layout, at: Place, counter: usize)
    ensures { addresses.new ≡ address_block (shape layout) at counter }
{
    let mut inner = address_input(layout, at, counter);
    join(addresses, &ZERO_BLOCK, &inner);
    inner = *addresses;
    join(addresses, &ZERO_BLOCK, &inner);
}

// Writes the address block that a place needs, unless it is that of the place before. Each serves 128
// places of a segment.
pub(crate) fn refresh(addresses: &mut Block, layout: Layout, at: Place)
    ensures { at.pass ≡ 0 → at.slice < 2
        → (0 < at.index → addresses.old ≡ address_block (shape layout) at ((at.index - 1) / 128 + 1))
        → addresses.new ≡ address_block (shape layout) at (at.index / 128 + 1) }
{
    if at.pass == 0 && at.slice < 2 && at.index % 128 == 0 {
        write_addresses(addresses, layout, at, at.index / 128 + 1);
    }
}

// Returns J_2 and J_1 of a place as one word, J_2 in the high half.
#[tactic(auto, unfolding(crate::specs::References::reference_word))]
pub(crate) fn reference_word(addresses: &Block, at: Place, previous: &Block) -> u64
    ensures { (layout : Layout) → (at.pass ≡ 0 → at.slice < 2
        → addresses.now ≡ address_block (shape layout) at (at.index / 128 + 1))
        → result ≡ reference_word (shape layout) at previous.now }
{
    if at.pass == 0 && at.slice < 2 {
        addresses[at.index % 128]
    } else {
        previous[0]
    }
}

// Returns the lane that is referred to.
#[tactic(auto, unfolding(crate::specs::References::reference_lane))]
pub(crate) fn reference_lane(layout: Layout, at: Place, j2: u64) -> usize
    requires { at.lane < layout.lanes }
    ensures value { result ≡ reference_lane (shape layout) at j2 }
    ensures within { result < layout.lanes }
    ensures own { at.pass ≡ 0 → at.slice ≡ 0 → result ≡ at.lane }
{
    if at.pass == 0 && at.slice == 0 {
        at.lane
    } else {
        (j2 % layout.lanes as u64) as usize
    }
}

#[tactic(auto, unfolding(crate::specs::References::finished))]
fn finished(layout: Layout, at: Place) -> usize
    requires { at.slice < 4 }
    ensures value { result ≡ finished (shape layout) at }
    ensures most { result ≤ 3 * layout.width }
    ensures some { (at.pass ≡ 0 → at.slice ≡ 0 → ⊥) → layout.width ≤ result }
{
    if at.pass == 0 {
        at.slice * layout.width
    } else {
        layout.columns() - layout.width
    }
}

#[tactic(auto, unfolding(crate::specs::References::choices))]
fn choices(layout: Layout, at: Place, lane: usize) -> usize
    requires slice { at.slice < 4 }
    requires index { at.index < layout.width }
    requires begun { at.pass ≡ 0 → 2 ≤ column_of (shape layout) at }
    requires own { at.pass ≡ 0 → at.slice ≡ 0 → lane ≡ at.lane }
    ensures value { result ≡ choices (shape layout) at lane }
    ensures some { 1 ≤ result }
    ensures most { result ≤ columns (shape layout) }
{
    if lane == at.lane {
        finished(layout, at) + at.index - 1
    } else if at.index == 0 {
        finished(layout, at) - 1
    } else {
        finished(layout, at)
    }
}

fn choice(count: usize, j1: u64) -> usize
    requires some { 1 ≤ count }
    requires most { count ≤ MAX_KIB }
    requires low { j1 < 2 ^ 32 }
    ensures value { result ≡ choice count j1 }
    ensures within { result < count }
{
    let from_newest = (count as u64 * (j1 * j1 >> 32)) >> 32;
    count - 1 - from_newest as usize
}

#[tactic(auto, unfolding(crate::specs::References::oldest))]
fn oldest(layout: Layout, at: Place) -> usize
    requires { at.slice < 4 }
    ensures value { result ≡ oldest (shape layout) at }
    ensures within { result < columns (shape layout) }
{
    if at.pass == 0 || at.slice == 3 {
        0
    } else {
        (at.slice + 1) * layout.width
    }
}

// Returns the column that is referred to, in a lane that `reference_lane` returned.
#[tactic(auto, unfolding(crate::specs::References::reference_column))]
pub(crate) fn reference_column(layout: Layout, at: Place, lane: usize, j1: u64) -> usize
    requires slice { at.slice < 4 }
    requires index { at.index < layout.width }
    requires begun { at.pass ≡ 0 → 2 ≤ column_of (shape layout) at }
    requires own { at.pass ≡ 0 → at.slice ≡ 0 → lane ≡ at.lane }
    requires low { j1 < 2 ^ 32 }
    ensures value { result ≡ reference_column (shape layout) at lane j1 }
    ensures within { result < columns (shape layout) }
{
    let count = choices(layout, at, lane);
    (oldest(layout, at) + choice(count, j1)) % layout.columns()
}
