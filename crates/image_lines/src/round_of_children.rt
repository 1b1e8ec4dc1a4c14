//! The second round of reading: each entry refers to a node of its own, other than the root.

ghost use Rattle.std.specs.Prelude.{◌≡◌, ◌≤◌, ℕ, List, [], ◌∷◌, None, length, IfOk, IfErr, OnOk};
ghost use Rattle.std.specs.Bool.{OnTrue};
ghost use Rattle.text_words.specs.Lines.{pieces_of};
ghost use Rattle.image_lines.specs.Lines.{entry_of_line};
ghost use Rattle.image_lines.specs.ChildFaults.{child_fault_from, may_name_child};
ghost use Rattle.image_lines.specs.Places.{DoRise, numbers_at};
ghost use Rattle.image_lines.specs.ReadFaults.{IsFault};
ghost use Rattle.image_lines.specs.Marks.{AreMarked, GoesOn, IsIndexOf};
ghost use Rattle.image_lines.specs.declared.TheConstants.{MAX_IMAGE_BYTES};

use crate::MAX_IMAGE_BYTES;
use crate::fault::ImageFault;
use crate::lines::read_entry_line;
use crate::round_of_lines::NodePlace;
use std::alloc::{AllocError, Global};
use text_words::next_line;

// Returns an error at the first entry line whose child is the root, has no node line, or is the child of an
// earlier one.
pub(crate) fn check_children(
    alloc: Global,
    text: &[u8],
    places: &[NodePlace],
) -> Result<(), ImageFault>
    requires short { length text.now ≤ MAX_IMAGE_BYTES }
    requires rising { DoRise places.now }
    ensures faultless { OnOk result (child_fault_from 1 (numbers_at places.now) [] (pieces_of text.now)
        ≡ None) }
    ensures refused { IfErr result (λ fault. IsFault fault
        (child_fault_from 1 (numbers_at places.now) [] (pieces_of text.now))) }
{
    let mut led = no_marks(alloc, places)?;
    let mut rest = text;
    let mut number = 1;
    'lines: while !rest.is_empty() {
        let line = next_line(rest);
        if !over_line(places, &mut led, line.bytes) {
            return Err(ImageFault::BadLine { line: number });
        }
        rest = line.rest;
        number += 1;
    }
    Ok(())
}

// Returns a mark for each node, none of which is set.
fn no_marks(alloc: Global, places: &[NodePlace]) -> Result<Vec<bool>, AllocError>
    ensures { IfOk result (λ marks. AreMarked (numbers_at places.now) [] marks.items) }
{
    let marks = vec![in alloc; false; places.len()]?;
    Ok(marks)
}

// Marks the node to which the line refers, if it is an entry's. Returns false if the entry may not refer to
// it.
fn over_line(places: &[NodePlace], led: &mut Vec<bool>, line: &[u8]) -> bool
    requires rising { DoRise places.now }
    requires sized { length led.old.items ≡ length places.now }
    ensures { (earlier : List ℕ) → AreMarked (numbers_at places.now) earlier led.old.items
        → GoesOn (numbers_at places.now) earlier (entry_of_line line.now) led.new.items result }
{
    match read_entry_line(line) {
        Some(entry) => lead_to(places, led.as_mut_slice(), entry.child),
        None => true,
    }
}

// Marks the node of this number. Returns false if it is the root, there is none, or it was marked.
fn lead_to(places: &[NodePlace], led: &mut [bool], child: u32) -> bool
    requires rising { DoRise places.now }
    requires sized { length led.old ≡ length places.now }
    ensures { (earlier : List ℕ) → AreMarked (numbers_at places.now) earlier led.old
        → (result ≡ may_name_child (numbers_at places.now) earlier child)
        × OnTrue result (AreMarked (numbers_at places.now) (child ∷ earlier) led.new) }
{
    if child == 0 {
        return false;
    }
    let Some(index) = index_of(places, child) else {
        return false;
    };
    if led[index] {
        return false;
    }
    led[index] = true;
    true
}

// Returns the index of the node of this number.
pub(crate) fn index_of(places: &[NodePlace], number: u32) -> Option<usize>
    requires rising { DoRise places.now }
    ensures { IsIndexOf (numbers_at places.now) number result }
{
    places
        .binary_search_by_key(&number, |place| place.number)
        .ok()
}
