//! The row of slots of a `RisingMap`: how a number's slot is found, filled and emptied.
ghost use Rattle.std.specs.Prelude.{◌≡◌, ◌<◌, ◌≤◌, ◌↔◌, ◌+◌, ℕ, length, true, is_some, filter};
ghost use Rattle.std.specs.Prelude.{IfSome, IfNone, IfOk, OnOk, OnErr, IsTrue, None, Some};
ghost use Rattle.std.specs.Prelude.{if◌then◌else◌, slice_get, slice_set, slice_index, vec_len};
ghost use Rattle.std.specs.List.Sorted.{IsStrictlySortedBy};
ghost use Rattle.std.specs.BTreeMap.{insert_entry};
ghost use Rattle.std.specs.Ordering.{nat_cmp};
ghost use Rattle.number_map.specs.Rising.{value_at, pairs_of_slots, numbers};
ghost use Rattle.number_map.specs.declared.row.Slot.{Slot as Stored};

use std::alloc::AllocError;

// A number with its value, unless that was removed.
#[derive(Drop)]
pub(crate) struct Slot<V> {
    pub(crate) number: u64,
    pub(crate) value: Option<V>,
}

// Empty slots stay unless half of the slots are more than those with a value and this many.
const SPARE_SLOTS: usize = 16;

// Whether the slot at the place has the number.
fn has<V>(slots: &[Slot<V>], at: usize, number: u64) -> bool
    ensures { IsTrue result
        ↔ ((at < length slots.now) × (slice_index (numbers slots.now) at ≡ number)) }
{
    match slots.get(at) {
        Some(slot) => slot.number == number,
        None => false,
    }
}

// The number of slots with a lower number, found by binary search.
fn lower_count<V>(slots: &[Slot<V>], number: u64) -> usize
    requires { IsStrictlySortedBy nat_cmp (numbers slots.now) }
    ensures within { result ≤ length slots.now }
    ensures lower { (k : ℕ) → k < result → slice_index (numbers slots.now) k < number }
    ensures others { (k : ℕ) → result ≤ k → k < length slots.now
        → number ≤ slice_index (numbers slots.now) k }
{
    let mut low = 0;
    let mut high = slots.len();
    while low < high {
        let mid = low + (high - low) / 2;
        if slots[mid].number < number {
            low = mid + 1;
        } else {
            high = mid;
        }
    }
    low
}

// Whether the number is above all others.
fn is_above<V>(slots: &[Slot<V>], number: u64) -> bool
    requires { IsStrictlySortedBy nat_cmp (numbers slots.now) }
    ensures { IsTrue result → (k : ℕ) → k < length slots.now → slice_index (numbers slots.now) k < number }
{
    match slots.last() {
        Some(last) => last.number < number,
        None => true,
    }
}

// The distance of the number from the first: its place, if each number in between has a slot.
fn likely_place<V>(slots: &[Slot<V>], number: u64) -> usize {
    match slots.first() {
        Some(first) => number.saturating_sub(first.number) as usize,
        None => 0,
    }
}

// The place of the number's slot. If there is none, the number has no value. The last slot and the likely
// place are tried first, since the newest numbers are asked for most often, and most rows have no gaps.
pub(crate) fn place_of<V>(slots: &[Slot<V>], number: u64) -> Option<usize>
    requires { IsStrictlySortedBy nat_cmp (numbers slots.now) }
    ensures found { IfSome result
        (λ at. (at < length slots.now) × (slice_index (numbers slots.now) at ≡ number)) }
    ensures none { IfNone result (value_at (pairs_of_slots slots.now) number ≡ None) }
{
    if is_above(slots, number) {
        return None;
    }
    let last = slots.len().saturating_sub(1);
    if has(slots, last, number) {
        return Some(last);
    }
    let likely = likely_place(slots, number);
    if has(slots, likely, number) {
        return Some(likely);
    }
    let at = lower_count(slots, number);
    if has(slots, at, number) {
        return Some(at);
    }
    None
}

// Puts a slot with a value in the place of its number, and returns whether the number had no value. After
// an error the slots are unchanged.
pub(crate) fn put_slot<V: Drop>(slots: &mut Vec<Slot<V>>, slot: Slot<V>) -> Result<bool, AllocError>
    requires rising { IsStrictlySortedBy nat_cmp (numbers slots.old.items) }
    requires filled { IsTrue (is_some slot.value) }
    ensures put { (value : V) → slot.value ≡ Some value
        → OnOk result (pairs_of_slots slots.new.items
        ≡ insert_entry nat_cmp (pairs_of_slots slots.old.items) slot.number value) }
    ensures counted { IfOk result (λ more. length (pairs_of_slots slots.new.items)
        ≡ length (pairs_of_slots slots.old.items) + (if more then 1 else 0)) }
    ensures rising { IsStrictlySortedBy nat_cmp (numbers slots.new.items) }
    ensures kept { OnErr result (slots.new.items ≡ slots.old.items) }
{
    if is_above(slots.as_slice(), slot.number) {
        slots.push(slot)?;
        return Ok(true);
    }
    let at = lower_count(slots.as_slice(), slot.number);
    if has(slots.as_slice(), at, slot.number) {
        let more = slots[at].value.is_none();
        slots[at] = slot;
        return Ok(more);
    }
    slots.insert(at, slot)?;
    Ok(true)
}

// Removes the value from the slot and returns it.
pub(crate) fn take_value<V: Drop>(slots: &mut Vec<Slot<V>>, at: usize) -> Option<V>
    requires { at < vec_len slots.old }
    ensures { (slot : Stored V) → slice_get slots.old.items at ≡ Some slot → (result ≡ slot.value)
        × (slots.new.items ≡ slice_set slots.old.items at (record slot { value = None })) }
{
    slots[at].value.take()
}

// Drops slots without a value: the last ones, and all of them if half of the slots are more than those with a
// value and `SPARE_SLOTS`.
pub(crate) fn shorten<V: Drop>(slots: &mut Vec<Slot<V>>, count: usize)
    ensures same { pairs_of_slots slots.new.items ≡ pairs_of_slots slots.old.items }
    ensures rising { IsStrictlySortedBy nat_cmp (numbers slots.old.items)
        → IsStrictlySortedBy nat_cmp (numbers slots.new.items) }
{
    pop_vacant(slots);
    if slots.len() / 2 > count.saturating_add(SPARE_SLOTS) {
        drop_vacant(slots);
    }
}

// Drops the last slots, up to one with a value.
fn pop_vacant<V: Drop>(slots: &mut Vec<Slot<V>>)
    ensures same { pairs_of_slots slots.new.items ≡ pairs_of_slots slots.old.items }
    ensures rising { IsStrictlySortedBy nat_cmp (numbers slots.old.items)
        → IsStrictlySortedBy nat_cmp (numbers slots.new.items) }
{
    while let Some(last) = slots.last() {
        if last.value.is_some() {
            return;
        }
        slots.pop();
    }
}

// Drops all slots without a value.
fn drop_vacant<V: Drop>(slots: &mut Vec<Slot<V>>)
    ensures { slots.new.items ≡ filter (λ slot. is_some slot.value) slots.old.items }
{
    slots.retain(|slot| slot.value.is_some());
}
