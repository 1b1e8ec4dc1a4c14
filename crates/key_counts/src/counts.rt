//! Counts under keys. A key whose count falls to 0 is removed.

ghost use Rattle.std.specs.Prelude.{◌≡◌, ◌+◌, ◌-◌, ◌<◌, ◌^◌, Some, unwrap_or, if◌then◌else◌};
ghost use Rattle.std.specs.Prelude.{IsSome, IsOk, OnOk, OnErr};
ghost use Rattle.std.specs.BTreeMap as tree;
ghost use Rattle.std.specs.Ordering.{eq_by_cmp};
ghost use Rattle.key_counts.specs.CountForms.{count_or_none};

use std::alloc::AllocError;
use std::collections::BTreeMap;

/// Returns the count of the key; 0 if there is none.
pub fn count_of<K: Ord>(counts: &BTreeMap<K, u32>, key: &K) -> u32
    ensures { result ≡ unwrap_or (tree.get K.cmp counts.now key.now) 0 }
{
    counts.get(key).copied().unwrap_or(0)
}

/// Counts the key once more. Only a key that has no count takes memory. If it is out of memory, the
/// counts are as before.
pub fn one_more<K: Ord + Drop>(counts: &mut BTreeMap<K, u32>, key: K) -> Result<(), AllocError>
    requires { unwrap_or (tree.get K.cmp counts.old key) 0 + 1 < 2 ^ 32 }
    ensures more { OnOk result (tree.Updates K.cmp counts.old counts.new key
        (Some (unwrap_or (tree.get K.cmp counts.old key) 0 + 1))) }
    ensures kept { OnErr result (tree.IsUnchanged counts.old counts.new) }
    ensures again { IsSome (tree.get K.cmp counts.old key) → IsOk result }
{
    let count = count_of(counts, &key);
    counts.insert(key, count + 1)?;
    Ok(())
}

/// Counts the key once less. It takes no memory.
pub fn one_less<K: Ord + Drop>(counts: &mut BTreeMap<K, u32>, key: &K)
    requires { 0 < unwrap_or (tree.get K.cmp counts.old key.now) 0 }
    ensures { (q : K) → tree.get K.cmp counts.new q ≡ (if eq_by_cmp K.cmp key.now q
        then count_or_none (unwrap_or (tree.get K.cmp counts.old key.now) 0 - 1)
        else tree.get K.cmp counts.old q) }
{
    let left = count_of(counts, key) - 1;
    if left == 0 {
        counts.remove(key);
        return;
    }
    if let Some(count) = counts.get_mut(key) {
        *count = left;
    }
}
