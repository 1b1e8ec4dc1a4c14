//! Where the blocks are: lanes one after the other in one buffer, each of four segments.

ghost use Rattle.std.specs.Prelude.{◌≡◌, ◌+◌, ◌*◌, ◌<◌, ◌≤◌, Ok};
ghost use Rattle.argon_kdf.specs.CostLimits.{checked_costs};
ghost use Rattle.argon_kdf.specs.declared.limits.TheConstants.{MAX_KIB, MAX_LANES, MAX_PASSES};

use crate::Costs;

// The number of passes over the memory, of lanes, and of columns of a segment.
#[derive(Clone, Copy)]
pub(crate) struct Layout {
    pub passes: usize,
    pub lanes: usize,
    pub width: usize,
    ghost some_pass: { 1 ≤ passes },
    ghost few_passes: { passes ≤ MAX_PASSES },
    ghost some_lane: { 1 ≤ lanes },
    ghost few_lanes: { lanes ≤ MAX_LANES },
    ghost wide: { 2 ≤ width },
    ghost narrow: { lanes * (4 * width) ≤ MAX_KIB },
}

// The place of a block in the order in which blocks are made: the pass, the slice of the pass, the
// lane, and the index in the segment that the slice has in the lane.
#[derive(Clone, Copy)]
pub(crate) struct Place {
    pub pass: usize,
    pub slice: usize,
    pub lane: usize,
    pub index: usize,
}

impl Layout {
    ghost use Rattle.argon_kdf.specs.Shapes.{block_count, column_before, column_of};
    ghost use Rattle.argon_kdf.specs.Shapes.{columns, shape, shape_of_costs};

    // Returns the layout with as many blocks as the costs allow.
    pub(crate) fn new(costs: &Costs) -> Layout
        requires { checked_costs costs.now ≡ Ok tt }
        ensures { shape result ≡ shape_of_costs costs.now }
    {
        Layout {
            passes: costs.passes as usize,
            lanes: costs.lanes as usize,
            width: (costs.kib / (4 * costs.lanes)) as usize,
        }
    }

    // Returns the number of columns of a lane.
    pub(crate) fn columns(self) -> usize
        ensures { result ≡ columns (shape self) }
    {
        4 * self.width
    }

    // Returns the number of blocks.
    pub(crate) fn block_count(self) -> usize
        ensures { result ≡ block_count (shape self) }
    {
        self.lanes * self.columns()
    }

    // Returns the index in the buffer of the block of a lane and a column.
    pub(crate) fn offset(self, lane: usize, column: usize) -> usize
        requires lane { lane < self.lanes }
        requires column { column < columns (shape self) }
        ensures value { result ≡ lane * columns (shape self) + column }
        ensures within { result < block_count (shape self) }
    {
        lane * self.columns() + column
    }

    // Returns the column of a place.
    pub(crate) fn column_of(self, at: Place) -> usize
        requires slice { at.slice < 4 }
        requires index { at.index < self.width }
        ensures value { result ≡ column_of (shape self) at }
        ensures within { result < columns (shape self) }
    {
        at.slice * self.width + at.index
    }

    // Returns the column before that of a place. Before the first column comes the last.
    pub(crate) fn column_before(self, at: Place) -> usize
        requires slice { at.slice < 4 }
        requires index { at.index < self.width }
        ensures value { result ≡ column_before (shape self) at }
        ensures within { result < columns (shape self) }
    {
        let column = self.column_of(at);
        if column == 0 {
            self.columns() - 1
        } else {
            column - 1
        }
    }
}
