//! States whose rows are not shifted yet. A round needs the bytes of a column together, and they can be
//! found wherever the rows are: so the shifts of all rounds are left to the end. After four of them each
//! row is in its place again, so the number of deferred shifts is taken modulo 4.

ghost use Rattle.std.specs.Prelude.{◌≡◌, ◌<◌, map};
ghost use Rattle.std.specs.Simd.Lanes.{Each1};
ghost use Rattle.aes_core.specs.Shuffles.{IsPlace, found_in};
ghost use Rattle.aes_core.specs.UnshiftedRows.{rotated_rows, unshifted_row};

use crate::shuffle_tables::Table;
use std::simd::prelude::*;

// The places that follow are tables of tables. They are statics, since a constant that is indexed is
// copied to the stack at each use.

// In each column the place of the byte of the next row.
static NEXT_ROWS: [Table; 4] = [
    [5, 6, 7, 4, 9, 10, 11, 8, 13, 14, 15, 12, 1, 2, 3, 0],
    [9, 10, 11, 8, 13, 14, 15, 12, 1, 2, 3, 0, 5, 6, 7, 4],
    [13, 14, 15, 12, 1, 2, 3, 0, 5, 6, 7, 4, 9, 10, 11, 8],
    [1, 2, 3, 0, 5, 6, 7, 4, 9, 10, 11, 8, 13, 14, 15, 12],
];

// The same of the row after the next.
static SECOND_ROWS: [Table; 4] = [
    [10, 11, 8, 9, 14, 15, 12, 13, 2, 3, 0, 1, 6, 7, 4, 5],
    [2, 3, 0, 1, 6, 7, 4, 5, 10, 11, 8, 9, 14, 15, 12, 13],
    [10, 11, 8, 9, 14, 15, 12, 13, 2, 3, 0, 1, 6, 7, 4, 5],
    [2, 3, 0, 1, 6, 7, 4, 5, 10, 11, 8, 9, 14, 15, 12, 13],
];

// The same of the third row on, which is the row before.
static THIRD_ROWS: [Table; 4] = [
    [15, 12, 13, 14, 3, 0, 1, 2, 7, 4, 5, 6, 11, 8, 9, 10],
    [11, 8, 9, 10, 15, 12, 13, 14, 3, 0, 1, 2, 7, 4, 5, 6],
    [7, 4, 5, 6, 11, 8, 9, 10, 15, 12, 13, 14, 3, 0, 1, 2],
    [3, 0, 1, 2, 7, 4, 5, 6, 11, 8, 9, 10, 15, 12, 13, 14],
];

// Each row rotated to the left by its number, times 0, 1, 2 and 3.
static ROTATIONS: [Table; 4] = [
    [0, 1, 2, 3, 4, 5, 6, 7, 8, 9, 10, 11, 12, 13, 14, 15],
    [0, 5, 10, 15, 4, 9, 14, 3, 8, 13, 2, 7, 12, 1, 6, 11],
    [0, 9, 2, 11, 4, 13, 6, 15, 8, 1, 10, 3, 12, 5, 14, 7],
    [0, 13, 10, 7, 4, 1, 14, 11, 8, 5, 2, 15, 12, 9, 6, 3],
];

// The bytes at these places.
#[inline(always)]
fn shuffle(state: u8x16, places: Table) -> u8x16
    requires { Each1 IsPlace places }
    ensures { result ≡ map (found_in state) places }
{
    state.swizzle_dyn(u8x16::from_array(places))
}

// In each column the byte of the next row, if `deferred` shifts and that of this round are left out.
#[inline(always)]
pub(crate) fn next_unshifted_row(state: u8x16, deferred: usize) -> u8x16
    requires { deferred < 4 }
    ensures { result ≡ unshifted_row 1 deferred state }
{
    shuffle(state, NEXT_ROWS[deferred])
}

// The same of the row after the next.
#[inline(always)]
pub(crate) fn second_unshifted_row(state: u8x16, deferred: usize) -> u8x16
    requires { deferred < 4 }
    ensures { result ≡ unshifted_row 2 deferred state }
{
    shuffle(state, SECOND_ROWS[deferred])
}

// The same of the row before.
#[inline(always)]
pub(crate) fn third_unshifted_row(state: u8x16, deferred: usize) -> u8x16
    requires { deferred < 4 }
    ensures { result ≡ unshifted_row 3 deferred state }
{
    shuffle(state, THIRD_ROWS[deferred])
}

// Each row rotated to the left by its number, this many times.
#[inline(always)]
pub(crate) fn rotate_rows(state: u8x16, times: usize) -> u8x16
    requires { times < 4 }
    ensures { result ≡ rotated_rows times state }
{
    shuffle(state, ROTATIONS[times])
}
