//! The listing of an image.

ghost use Rattle.std.specs.Prelude.{◌≡◌, ◌<◌, IfOk, OnOk, length};
ghost use Rattle.std.specs.Option.{option_map};
ghost use Rattle.tree_listing.specs.Listing.{IsListing, listed};
ghost use Rattle.tree_listing.specs.WayLines.{WritesAt};
ghost use Rattle.tree_listing.specs.Ways.{IsWayAt};

use crate::line::push_line;
use crate::reader::Reader;
use crate::walk::{Way, ways_to_reached};
use fsc_keys::PreparedKey;
use image_lines::Image;
use item_list::Bytes;
use std::alloc::{AllocError, Global};

/// Lists an image, with a raw key or without one: a line for each node that entries reach from the root,
/// in order of number. Returns `AllocError` if it is out of memory.
pub fn list_image(
    alloc: Global,
    image: &Image<'_>,
    key: Option<&PreparedKey>,
) -> Result<Bytes, AllocError>
    ensures { IfOk result (IsListing image.now (option_map (λ key. key.now) key.entry)) }
{
    let ways = ways_to_reached(alloc, image)?;
    let reader = reader_of(key);
    let mut text = Vec::new(alloc);
    'nodes: for index in 0..image.node_count() {
        push_found(alloc, &mut text, image, &reader, index, ways[index])?;
    }
    Ok(Bytes::from_vec(text))
}

// Writes the line of the node at this index, if it was found.
fn push_found(
    alloc: Global,
    text: &mut Vec<u8>,
    image: &Image<'_>,
    reader: &Option<Reader<'_>>,
    index: usize,
    way: Way,
) -> Result<(), AllocError>
    requires there { index < length image.now }
    requires way { IsWayAt image.now index way }
    ensures { OnOk result
        (WritesAt image.now (listed reader.now image.now) index way text.old.items text.new.items) }
{
    // The clause `image` of `text` holds: the nodes are an image.
    let _text = image.text();
    if let Way::Nowhere = way {
        return Ok(());
    }
    push_line(alloc, text, image, reader, &image.node(index), way)
}

// Returns the reader with this key, if there is one.
fn reader_of(key: Option<&PreparedKey>) -> Option<Reader<'_>>
    ensures { result ≡ option_map (λ key. key.now) key.entry }
{
    match key {
        Some(key) => Some(Reader::new(key)),
        None => None,
    }
}
