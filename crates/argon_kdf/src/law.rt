//! What holds of the definition's table, besides that it is filled in order.

ghost use Rattle.std.specs.Prelude.{◌≡◌, ◌≢◌, ◌⊎◌, ℕ, ◌+◌, ◌*◌, ◌/◌, ◌%◌, ◌^◌, ◌<◌, ◌≤◌, List};
ghost use Rattle.argon_kdf.specs.declared.layout.Place.{Place};
ghost use Rattle.argon_kdf.specs.Shapes.{IsWithin, Shape, column_of};
ghost use Rattle.argon_kdf.specs.References.{reference_column, reference_lane};
ghost use Rattle.argon_kdf.specs.Tables.{columns_made, latest};
ghost use Rattle.argon_kdf.specs.Filling.{new_block, with_passes};

/// The finished table meets the standard's recursion over itself: each block is the one that is made of the
/// latest blocks of that very table. In the first pass a reference goes to a block that is already made. No
/// reference goes into another lane's segment of the same slice, so lanes may be filled at the same time.
pub fn table_meets_the_recursion()
    ensures recursion { (x : Shape) (h0 : List ℕ) (at : Place) → 2 ≤ x.width → at.pass < x.passes
        → IsWithin x at
        → let table = with_passes x h0 x.passes in
        table at.pass at.lane (column_of x at) ≡ new_block x h0 at (latest x table at) }
    ensures made { (x : Shape) (at : Place) (word : ℕ) → 2 ≤ x.width → IsWithin x at → at.pass ≡ 0
        → 2 ≤ column_of x at
        → let lane = reference_lane x at (word / 2 ^ 32) in
        reference_column x at lane (word % 2 ^ 32) < columns_made x at lane }
    ensures apart { (x : Shape) (at : Place) (word : ℕ) → 2 ≤ x.width → IsWithin x at
        → let lane = reference_lane x at (word / 2 ^ 32) in
        let column = reference_column x at lane (word % 2 ^ 32) in
        lane ≢ at.lane → (column < at.slice * x.width) ⊎ (at.slice * x.width + x.width ≤ column) }
{}
