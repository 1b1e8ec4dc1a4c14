//! The law of the count of blocks. The function does nothing: its contract is the law.
ghost use Rattle.std.specs.Prelude.{ℕ};
ghost use Rattle.disk_tree.specs.Laws.{TotalsAgree};
ghost use Rattle.disk_tree.specs.declared.node.StoredNode.{StoredNode as Stored};

/// Does nothing. Its contract is a law of a map with which the disk agrees, if a number of blocks is
/// known for each of its nodes. The number of blocks of all files is the sum over these nodes.
pub fn block_total_is_the_sum_over_nodes<V>()
    ensures { (stored : V → Stored) (count : V → ℕ) → TotalsAgree stored count }
{}
