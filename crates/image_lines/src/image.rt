//! An image, read from its text.

ghost use Rattle.std.specs.Prelude.{◌≡◌, ◌<◌, ◌≤◌, ◌⊎◌, Ok, Err, Some, map, length, drop, slice_get, IfOk, IfErr};
ghost use Rattle.image_lines.specs.Image as tree;
ghost use Rattle.image_lines.specs.Image.{numbers_of};
ghost use Rattle.image_lines.specs.ImageText.{image_text};
ghost use Rattle.image_lines.specs.Rules.{IsImage};
ghost use Rattle.image_lines.specs.Reading.{image_read};
ghost use Rattle.image_lines.specs.Nodes.{IsRestOf, node_in, text_after};
ghost use Rattle.image_lines.specs.Places.{node_of_place, places_in};
ghost use Rattle.image_lines.specs.ReadFaults.{IsReadFault};
ghost use Rattle.image_lines.specs.Marks.{IsIndexOf};
ghost use Rattle.image_lines.specs.declared.fault.ImageFault.TheVariants.{NoMemory};
ghost use Rattle.image_lines.specs.declared.TheConstants.{MAX_IMAGE_BYTES};

use crate::MAX_IMAGE_BYTES;
use crate::fault::ImageFault;
use crate::lines::read_node_line;
use crate::node_line::NodeLine;
use crate::round_of_children::{check_children, index_of};
use crate::round_of_lines::{NodePlace, node_places};
use std::alloc::Global;
use std::marker::Model;
use text_words::next_line;

/// An image, over the text from which it was read. Besides the text it stores 8 bytes for each node: the
/// node's number and its place. The node's kind, and its entries and blocks, are read from the text on
/// request.
#[derive(Drop)]
pub struct Image<'a> {
    text: &'a [u8],
    places: Vec<NodePlace>,
}

impl<'a> Model for Image<'a> {
    ghost use Rattle.std.specs.Prelude.{◌≡◌, ◌≤◌, List, length, map, Ok};
    ghost use Rattle.image_lines.specs.Image.{ImageNode};
    ghost use Rattle.image_lines.specs.Reading.{image_read};
    ghost use Rattle.image_lines.specs.Places.{node_of_place, places_in};
    ghost use Rattle.image_lines.specs.declared.TheConstants.{MAX_IMAGE_BYTES};

    ghost Value = { List ImageNode };

    ghost view = { λ image. map (node_of_place image.text.now) image.places.items };

    ghost invariant = { λ image. (length image.text.now ≤ MAX_IMAGE_BYTES) × (image_read image.text.now
        ≡ Ok (map (node_of_place image.text.now) image.places.items))
        × (image.places.items ≡ places_in image.text.now) };
}

/// A node of an image, at its place in the text.
#[derive(Clone, Copy)]
pub struct NodeText<'a> {
    /// The content of the node's own line.
    pub line: NodeLine,
    /// The text after that line. It begins with the lines of the node's entries or blocks.
    pub rest: &'a [u8],
}

impl<'a> Image<'a> {
    /// Returns the text from which the image was read.
    pub fn text(&self) -> &'a [u8]
        ensures text { result.now ≡ image_text self.now }
        ensures short { length result.now ≤ MAX_IMAGE_BYTES }
        ensures image { IsImage self.now }
    {
        self.text
    }

    /// Returns the number of nodes.
    pub fn node_count(&self) -> usize
        ensures { result ≡ length self.now }
    {
        self.places.len()
    }

    /// Returns the node at this index, of those in order of number.
    pub fn node(&self, index: usize) -> NodeText<'a>
        requires { index < length self.now }
        ensures node { slice_get self.now index ≡ Some (node_in result) }
        ensures rest { IsRestOf (image_text self.now) result.rest.now }
        ensures after { result.rest.now ≡ text_after self.now index }
    {
        let place = self.places[index];
        let line = next_line(from_index(self.text, place.at as usize));
        match read_node_line(line.bytes) {
            Some(
                NodeLine {
                    number: _,
                    context,
                    kind,
                },
            ) => NodeText {
                line: NodeLine {
                    number: place.number,
                    context,
                    kind,
                },
                rest: line.rest,
            },
            None => unreachable!(),
        }
    }

    /// Returns the index of the node of this number, or `None` if the image has no such node.
    pub fn index_of(&self, number: u32) -> Option<usize>
        ensures { IsIndexOf (numbers_of self.now) number result }
    {
        index_of(self.places.as_slice(), number)
    }
}

// Returns the text from an index on.
fn from_index(text: &[u8], at: usize) -> &[u8]
    requires { at ≤ length text.now }
    ensures { result.now ≡ drop at text.now }
{
    &text[at..]
}

/// Reads an image from its text, of at most `MAX_IMAGE_BYTES` bytes. Returns the image with exactly this
/// text, or one of these errors:
/// - `BadLine` with the first line that may not be at its place, that no line feed ended, or that is
///   missing
/// - without such a line, `BadLine` with the first entry line whose child is the root, has no node line, or
///   is the child of an earlier entry line
/// - `NoMemory`
pub fn read_image(alloc: Global, text: &[u8]) -> Result<Image<'_>, ImageFault>
    requires short { length text.now ≤ MAX_IMAGE_BYTES }
    ensures read { IfOk result (λ image. image_read text.now ≡ Ok image) }
    ensures found { IfOk result (λ image. IsImage image × (text.now ≡ image_text image)) }
    ensures every { (image : tree.Image) → IsImage image → text.now ≡ image_text image
        → (result ≡ Ok image) ⊎ (result ≡ Err NoMemory) }
    ensures refused { IfErr result (λ fault. IsReadFault fault (image_read text.now)) }
{
    let places = read_places(alloc, text)?;
    Ok(Image { text, places })
}

// Returns the places of the nodes of an image.
fn read_places(alloc: Global, text: &[u8]) -> Result<Vec<NodePlace>, ImageFault>
    requires short { length text.now ≤ MAX_IMAGE_BYTES }
    ensures read { IfOk result (λ places. image_read text.now
        ≡ Ok (map (node_of_place text.now) places.items)) }
    ensures places { IfOk result (λ places. places.items ≡ places_in text.now) }
    ensures refused { IfErr result (λ fault. IsReadFault fault (image_read text.now)) }
{
    let places = node_places(alloc, text)?;
    check_children(alloc, text, places.as_slice())?;
    Ok(places)
}
