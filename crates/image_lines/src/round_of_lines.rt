//! The first round of reading: each line is allowed at its place.

ghost use Rattle.std.specs.Prelude.{◌≡◌, ◌≤◌, ◌++◌, None, map, length, IfOk, IfErr, OnOk};
ghost use Rattle.text_words.specs.Lines.{pieces_of};
ghost use Rattle.image_lines.specs.Lines.{node_of_line};
ghost use Rattle.image_lines.specs.WordForms.{nodes_at};
ghost use Rattle.image_lines.specs.LineFaults.{line_fault};
ghost use Rattle.image_lines.specs.Places.{node_of_place, place_of_line, places_in};
ghost use Rattle.image_lines.specs.ReadFaults.{IsFault};
ghost use Rattle.image_lines.specs.declared.TheConstants.{MAX_IMAGE_BYTES};

use crate::MAX_IMAGE_BYTES;
use crate::fault::ImageFault;
use crate::lines::read_node_line;
use crate::place::Place;
use std::alloc::{AllocError, Global};
use text_words::next_line;

/// Where a node is in a text.
#[derive(Clone, Copy)]
pub(crate) struct NodePlace {
    /// The node's number.
    pub number: u32,
    /// The index of the first byte of its line.
    pub at: u32,
}

// Returns the places of the nodes. Otherwise the fault is the first line that may not be at its place, that
// no line feed ended, or that is missing.
pub(crate) fn node_places(alloc: Global, text: &[u8]) -> Result<Vec<NodePlace>, ImageFault>
    requires short { length text.now ≤ MAX_IMAGE_BYTES }
    ensures faultless { IfOk result (λ places. line_fault text.now ≡ None) }
    ensures nodes { IfOk result (λ places. map (node_of_place text.now) places.items
        ≡ nodes_at (pieces_of text.now)) }
    ensures places { IfOk result (λ places. places.items ≡ places_in text.now) }
    ensures refused { IfErr result (λ fault. IsFault fault (line_fault text.now)) }
{
    let mut places = Vec::new(alloc);
    let mut place = Place::AtHeader;
    let mut rest = text;
    let mut number = 1;
    'lines: while !rest.is_empty() {
        let line = next_line(rest);
        if !line.ended {
            return Err(ImageFault::BadLine { line: number });
        }
        let Some(next) = place.next(line.bytes) else {
            return Err(ImageFault::BadLine { line: number });
        };
        add_place(&mut places, line.bytes, text.len() - rest.len())?;
        place = next;
        rest = line.rest;
        number += 1;
    }
    if !place.may_end() {
        return Err(ImageFault::BadLine { line: number });
    }
    Ok(places)
}

// Adds the place of the line, if it is a node's.
fn add_place(places: &mut Vec<NodePlace>, line: &[u8], at: usize) -> Result<(), AllocError>
    requires { at ≤ MAX_IMAGE_BYTES }
    ensures { OnOk result (places.new.items ≡ places.old.items ++ place_of_line (node_of_line line.now) at) }
{
    if let Some(node) = read_node_line(line) {
        places.push(NodePlace {
            number: node.number,
            at: at as u32,
        })?;
    }
    Ok(())
}
